// A price before the finger lifts: what every run would cost after a block is moved.
#![tactic(auto)]

ghost use Rattle.std.specs.Prelude.{◌≡◌, true, map, ◌*◌, ◌<◌, length};
ghost use Rattle.refusals.specs.Numbers.{answer_of};
ghost use Rattle.lists.specs.Lists.{all, splice};
ghost use Rattle.geometry.specs.Words.{block_words, corners};
ghost use Rattle.geometry.specs.inner.Bounds.{Bounded};
ghost use Rattle.tables.specs.Tables.{tables};
ghost use Rattle.tables.specs.Written.{block_record};
ghost use Rattle.records.specs.Questions.{shift_right, shifted};
ghost use Rattle.move_quotes.specs.Quote.{quote_answer, MoveQuoted};

use lists::put_words;
use refusals::Refusal;

// The first question that is answered no.
fn answer(
    blocks: &[u16],
    runs: &[u16],
    pairs: &[u8],
    routes: &[u32],
    totals: &[u32],
    number: u32,
    east: i16,
    north: i16,
    quote: &[u32],
) -> Result<(), Refusal>
    ensures { answer_of result ≡ quote_answer (tables blocks.now runs.now pairs.now routes.now totals.now)
        number east north quote.now }
{
    if quote.len() != 48 {
        return Err(Refusal::WrongLengths);
    }
    answers::move_block_answer(blocks, runs, pairs, routes, totals, number, east, north)
}

// The block table with block n moved.
fn move_words(blocks: &[u16], n: usize, east: i16, north: i16, after: &mut [u16])
    requires { (Bounded blocks.now) × (n < 24) × (all (shift_right east north) (corners (block_words blocks.now n)) ≡ true) × (length after.old ≡ 408) }
    ensures { after.new ≡ splice blocks.now (17 * n) (block_record (map (shifted east north) (corners (block_words blocks.now n)))) }
{
    let words = moves::moved_record(&blocks[17 * n..17 * n + 17], east, north);
    put_words(after, 0, blocks);
    put_words(after, 17 * n, &words);
}

// The 24 states, then the 24 lengths, that the records require after block number is moved. Refused, the 48 words keep their contents.
pub fn quote_move(
    blocks: &[u16],
    runs: &[u16],
    pairs: &[u8],
    routes: &[u32],
    totals: &[u32],
    number: u32,
    east: i16,
    north: i16,
    quote: &mut [u32],
) -> Result<(), Refusal>
    ensures { MoveQuoted (tables blocks.now runs.now pairs.now routes.now totals.now)
        number east north quote.old (answer_of result) quote.new }
{
    answer(
        blocks, runs, pairs, routes, totals, number, east, north, quote,
    )?;
    let mut after = [0u16; 408];
    move_words(blocks, number as usize, east, north, &mut after);
    run_prices::price_records(&after, runs, quote);
    Ok(())
}
