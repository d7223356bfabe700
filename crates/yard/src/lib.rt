// The empty yard and the check, over five tables that the caller lends; the edits are those of block_edits and run_edits.
#![tactic(auto)]

ghost use Rattle.refusals.specs.Numbers.{answer_of};
ghost use Rattle.tables.specs.Tables.{tables};
ghost use Rattle.book.specs.Edits.{Started, Checked};

use answers::{fitness, lengths_right};
use redrawing::pairs_right;
use refusals::Refusal;
use routing::routes_right;
use totals::totals_right;

// The empty yard.
pub fn start(
    blocks: &mut [u16],
    runs: &mut [u16],
    pairs: &mut [u8],
    routes: &mut [u32],
    totals: &mut [u32],
) -> Result<(), Refusal>
    ensures { Started (tables blocks.old runs.old pairs.old routes.old totals.old)
        (answer_of result) (tables blocks.new runs.new pairs.new routes.new totals.new) }
{
    if !lengths_right(blocks, runs, pairs, routes, totals) {
        return Err(Refusal::WrongLengths);
    }
    blocks.fill(0);
    runs.fill(0);
    pairs.fill(255);
    routes.fill(0);
    totals.fill(0);
    Ok(())
}

// Whether pairs, routes and totals are what the stored blocks and runs require; they are out of date where they are not.
pub fn check(
    blocks: &[u16],
    runs: &[u16],
    pairs: &[u8],
    routes: &[u32],
    totals: &[u32],
) -> Result<(), Refusal>
    ensures { Checked (tables blocks.now runs.now pairs.now routes.now totals.now) (answer_of result) }
{
    fitness(blocks, runs, pairs, routes, totals)?;
    if !pairs_right(blocks, runs, pairs) {
        return Err(Refusal::OutOfDate);
    }
    if !routes_right(blocks, runs, pairs, routes) {
        return Err(Refusal::OutOfDate);
    }
    if !totals_right(pairs, routes, totals) {
        return Err(Refusal::OutOfDate);
    }
    Ok(())
}
