// The three edits of runs, over five tables that the caller lends.
// Each is refused by the first question that is answered no, and then changes no table.
#![tactic(auto)]

ghost use Rattle.std.specs.Prelude.{◌≡◌, ◌<◌, length};
ghost use Rattle.geometry.specs.Words.{point_of};
ghost use Rattle.refusals.specs.Numbers.{answer_of};
ghost use Rattle.tables.specs.Tables.{tables, stored};
ghost use Rattle.tables.specs.inner.Fit.{BoundedRun, Fit};
ghost use Rattle.book.specs.Book.{add_run, remove_run, move_run};
ghost use Rattle.book.specs.Edits.{RunEdited, Called};

use answers::{add_run_answer, move_run_answer, remove_run_answer};
use geometry::Place;
use lists::put_words;
use redrawing::redraw_run;
use refusals::Refusal;
use routing::all_routes;
use totals::write_totals;

// Run m's record is replaced; pairs, routes and totals follow.
fn replace_run(
    blocks: &[u16],
    runs: &mut [u16],
    pairs: &mut [u8],
    routes: &mut [u32],
    totals: &mut [u32],
    m: usize,
    words: &[u16],
)
    requires fit { (Fit (stored blocks.now runs.old)) × (BoundedRun words.now) × (m < 24) }
    requires sizes { (length pairs.old ≡ 28680) × (length routes.old ≡ 4728) × (length totals.old ≡ 25) }
    ensures { RunEdited (tables blocks.now runs.old pairs.old routes.old totals.old)
        m words.now (tables blocks.now runs.new pairs.new routes.new totals.new) }
{
    put_words(runs, 5 * m, words);
    redraw_run(blocks, runs, pairs, m);
    all_routes(blocks, runs, pairs, routes);
    write_totals(pairs, routes, totals);
}

pub fn add_run(
    blocks: &[u16],
    runs: &mut [u16],
    pairs: &mut [u8],
    routes: &mut [u32],
    totals: &mut [u32],
    number: u32,
    first: Place,
    second: Place,
) -> Result<(), Refusal>
    ensures { Called (add_run number (point_of first) (point_of second))
        (tables blocks.now runs.old pairs.old routes.old totals.old)
        (answer_of result) (tables blocks.now runs.new pairs.new routes.new totals.new) }
{
    add_run_answer(blocks, runs, pairs, routes, totals, number, first, second)?;
    let words = [1, first.east, first.north, second.east, second.north];
    replace_run(blocks, runs, pairs, routes, totals, number as usize, &words);
    Ok(())
}

pub fn remove_run(
    blocks: &[u16],
    runs: &mut [u16],
    pairs: &mut [u8],
    routes: &mut [u32],
    totals: &mut [u32],
    number: u32,
) -> Result<(), Refusal>
    ensures { Called (remove_run number)
        (tables blocks.now runs.old pairs.old routes.old totals.old)
        (answer_of result) (tables blocks.now runs.new pairs.new routes.new totals.new) }
{
    remove_run_answer(blocks, runs, pairs, routes, totals, number)?;
    let words = [0u16; 5];
    replace_run(blocks, runs, pairs, routes, totals, number as usize, &words);
    Ok(())
}

// Run number with both ends new.
pub fn move_run(
    blocks: &[u16],
    runs: &mut [u16],
    pairs: &mut [u8],
    routes: &mut [u32],
    totals: &mut [u32],
    number: u32,
    first: Place,
    second: Place,
) -> Result<(), Refusal>
    ensures { Called (move_run number (point_of first) (point_of second))
        (tables blocks.now runs.old pairs.old routes.old totals.old)
        (answer_of result) (tables blocks.now runs.new pairs.new routes.new totals.new) }
{
    move_run_answer(blocks, runs, pairs, routes, totals, number, first, second)?;
    let words = [1, first.east, first.north, second.east, second.north];
    replace_run(blocks, runs, pairs, routes, totals, number as usize, &words);
    Ok(())
}
