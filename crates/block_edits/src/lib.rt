// The three edits of blocks, over five tables that the caller lends.
// Each is refused by the first question that is answered no, and then changes no table.
#![tactic(auto)]

ghost use Rattle.std.specs.Prelude.{◌≡◌, ◌<◌, length, replicate};
ghost use Rattle.refusals.specs.Numbers.{answer_of};
ghost use Rattle.tables.specs.Tables.{tables, stored};
ghost use Rattle.codes.specs.inner.Codes.{RightRecord, Upright};
ghost use Rattle.book.specs.Book.{add_block, remove_block, move_block};
ghost use Rattle.book.specs.Edits.{BlockEdited, Called};

use answers::{add_block_answer, move_block_answer, remove_block_answer};
use lists::put_words;
use moves::moved_record;
use records::new_record;
use redrawing::redraw_block;
use refusals::Refusal;
use routing::all_routes;
use totals::write_totals;

// Block n's record is replaced; pairs, routes and totals follow.
fn replace_block(
    blocks: &mut [u16],
    runs: &[u16],
    pairs: &mut [u8],
    routes: &mut [u32],
    totals: &mut [u32],
    n: usize,
    words: &[u16],
)
    requires upright { (Upright (stored blocks.old runs.now)) × (RightRecord words.now) × (n < 24) }
    requires sizes { (length pairs.old ≡ 28680) × (length routes.old ≡ 4728) × (length totals.old ≡ 25) }
    ensures { BlockEdited (tables blocks.old runs.now pairs.old routes.old totals.old)
        n words.now (tables blocks.new runs.now pairs.new routes.new totals.new) }
{
    put_words(blocks, 17 * n, words);
    redraw_block(blocks, runs, pairs, n);
    all_routes(blocks, runs, pairs, routes);
    write_totals(pairs, routes, totals);
}

// Block k's record is cleared; pairs, routes and totals follow. It has the redrawing called from two places, so that what
// that needs of stack is not part of the frame in which the routes are made.
fn erase_block(
    blocks: &mut [u16],
    runs: &[u16],
    pairs: &mut [u8],
    routes: &mut [u32],
    totals: &mut [u32],
    k: usize,
)
    requires upright { (Upright (stored blocks.old runs.now)) × (k < 24) }
    requires sizes { (length pairs.old ≡ 28680) × (length routes.old ≡ 4728) × (length totals.old ≡ 25) }
    ensures { BlockEdited (tables blocks.old runs.now pairs.old routes.old totals.old)
        k (replicate 17 0) (tables blocks.new runs.now pairs.new routes.new totals.new) }
{
    let words = [0u16; 17];
    put_words(blocks, 17 * k, &words);
    redraw_block(blocks, runs, pairs, k);
    all_routes(blocks, runs, pairs, routes);
    write_totals(pairs, routes, totals);
}

// Block number with the corners lent, east then north.
pub fn add_block(
    blocks: &mut [u16],
    runs: &[u16],
    pairs: &mut [u8],
    routes: &mut [u32],
    totals: &mut [u32],
    number: u32,
    corners: &[u16],
) -> Result<(), Refusal>
    ensures { Called (add_block number corners.now)
        (tables blocks.old runs.now pairs.old routes.old totals.old)
        (answer_of result) (tables blocks.new runs.now pairs.new routes.new totals.new) }
{
    add_block_answer(blocks, runs, pairs, routes, totals, number, corners)?;
    let words = new_record(corners);
    replace_block(blocks, runs, pairs, routes, totals, number as usize, &words);
    Ok(())
}

pub fn remove_block(
    blocks: &mut [u16],
    runs: &[u16],
    pairs: &mut [u8],
    routes: &mut [u32],
    totals: &mut [u32],
    number: u32,
) -> Result<(), Refusal>
    ensures { Called (remove_block number)
        (tables blocks.old runs.now pairs.old routes.old totals.old)
        (answer_of result) (tables blocks.new runs.now pairs.new routes.new totals.new) }
{
    remove_block_answer(blocks, runs, pairs, routes, totals, number)?;
    erase_block(blocks, runs, pairs, routes, totals, number as usize);
    Ok(())
}

// Block number moved by a displacement.
pub fn move_block(
    blocks: &mut [u16],
    runs: &[u16],
    pairs: &mut [u8],
    routes: &mut [u32],
    totals: &mut [u32],
    number: u32,
    east: i16,
    north: i16,
) -> Result<(), Refusal>
    ensures { Called (move_block number east north)
        (tables blocks.old runs.now pairs.old routes.old totals.old)
        (answer_of result) (tables blocks.new runs.now pairs.new routes.new totals.new) }
{
    move_block_answer(blocks, runs, pairs, routes, totals, number, east, north)?;
    let n = number as usize;
    let words = moved_record(&blocks[17 * n..17 * n + 17], east, north);
    replace_block(blocks, runs, pairs, routes, totals, n, &words);
    Ok(())
}
