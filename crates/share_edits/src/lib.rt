// Runs added, removed and moved in the names of four contractors, each of which keeps the share that it was promised.
// Each call is refused by the first question that is answered no, and then changes no table and no holder.
#![tactic(auto)]

ghost use Rattle.std.specs.Prelude.{◌≡◌, []};
ghost use Rattle.refusals.specs.Numbers.{answer_of};
ghost use Rattle.geometry.specs.Words.{point_of};
ghost use Rattle.tables.specs.Tables.{tables};
ghost use Rattle.shares.specs.Shares.{terms};
ghost use Rattle.shares.specs.Calls.{add_run_for, remove_run_for, move_run_for, CalledFor};
ghost use Rattle.share_answers.specs.inner.Asked.{run_places, add_asked, own_asked};
ghost use Rattle.share_edits.specs.inner.Over.{over};

use answers::fitness;
use geometry::Place;
use refusals::Refusal;
use run_edits::{add_run, move_run, remove_run};
use share_answers::Lent;

// Questions 1 and 2, and 1 of the lists too.
#[tactic(auto, unfolding(crate::specs::inner::Over::over, shares::specs::Shares::lists_right, book::specs::Questions::first_no))]
fn fitness_for(
    blocks: &[u16],
    runs: &[u16],
    pairs: &[u8],
    routes: &[u32],
    totals: &[u32],
    holders: &[u8],
    shares: &[u8],
    ceilings: &[u8],
) -> Result<(), Refusal>
    ensures { answer_of result ≡ over (tables blocks.now runs.now pairs.now routes.now totals.now)
        (terms shares.now ceilings.now) holders.now [] }
{
    if holders.len() != 24 || shares.len() != 4 || ceilings.len() != 4 {
        return Err(Refusal::WrongLengths);
    }
    fitness(blocks, runs, pairs, routes, totals)
}

// Every question of an addition but 7.
fn add_answer_over(
    blocks: &[u16],
    runs: &[u16],
    pairs: &[u8],
    routes: &[u32],
    totals: &[u32],
    holders: &[u8],
    shares: &[u8],
    ceilings: &[u8],
    contractor: u32,
    number: u32,
) -> Result<(), Refusal>
    ensures { answer_of result ≡ over (tables blocks.now runs.now pairs.now routes.now totals.now)
        (terms shares.now ceilings.now) holders.now
        (add_asked (run_places runs.now) (terms shares.now ceilings.now) holders.now contractor number) }
{
    fitness_for(
        blocks, runs, pairs, routes, totals, holders, shares, ceilings,
    )?;
    let lent = Lent {
        runs,
        holders,
        shares,
        ceilings,
    };
    lent.add_answer(contractor, number)
}

// Every question of a removal or a move but 7.
fn own_answer_over(
    blocks: &[u16],
    runs: &[u16],
    pairs: &[u8],
    routes: &[u32],
    totals: &[u32],
    holders: &[u8],
    shares: &[u8],
    ceilings: &[u8],
    contractor: u32,
    number: u32,
) -> Result<(), Refusal>
    ensures { answer_of result ≡ over (tables blocks.now runs.now pairs.now routes.now totals.now)
        (terms shares.now ceilings.now) holders.now
        (own_asked (run_places runs.now) (terms shares.now ceilings.now) holders.now contractor number) }
{
    fitness_for(
        blocks, runs, pairs, routes, totals, holders, shares, ceilings,
    )?;
    let lent = Lent {
        runs,
        holders,
        shares,
        ceilings,
    };
    lent.own_answer(contractor, number)
}

// A run added in a contractor's name.
pub fn add_run_for(
    blocks: &[u16],
    runs: &mut [u16],
    pairs: &mut [u8],
    routes: &mut [u32],
    totals: &mut [u32],
    holders: &mut [u8],
    shares: &[u8],
    ceilings: &[u8],
    contractor: u32,
    number: u32,
    first: Place,
    second: Place,
) -> Result<(), Refusal>
    ensures { CalledFor (add_run_for contractor number (point_of first) (point_of second)) (terms shares.now ceilings.now)
        (tables blocks.now runs.old pairs.old routes.old totals.old) holders.old
        (answer_of result) (tables blocks.now runs.new pairs.new routes.new totals.new) holders.new }
{
    add_answer_over(
        blocks, runs, pairs, routes, totals, holders, shares, ceilings, contractor, number,
    )?;
    add_run(blocks, runs, pairs, routes, totals, number, first, second)?;
    holders[number as usize] = contractor as u8;
    Ok(())
}

// A contractor's own run removed.
pub fn remove_run_for(
    blocks: &[u16],
    runs: &mut [u16],
    pairs: &mut [u8],
    routes: &mut [u32],
    totals: &mut [u32],
    holders: &mut [u8],
    shares: &[u8],
    ceilings: &[u8],
    contractor: u32,
    number: u32,
) -> Result<(), Refusal>
    ensures { CalledFor (remove_run_for contractor number) (terms shares.now ceilings.now)
        (tables blocks.now runs.old pairs.old routes.old totals.old) holders.old
        (answer_of result) (tables blocks.now runs.new pairs.new routes.new totals.new) holders.new }
{
    own_answer_over(
        blocks, runs, pairs, routes, totals, holders, shares, ceilings, contractor, number,
    )?;
    remove_run(blocks, runs, pairs, routes, totals, number)?;
    holders[number as usize] = 255;
    Ok(())
}

// A contractor's own run with both ends new.
pub fn move_run_for(
    blocks: &[u16],
    runs: &mut [u16],
    pairs: &mut [u8],
    routes: &mut [u32],
    totals: &mut [u32],
    holders: &[u8],
    shares: &[u8],
    ceilings: &[u8],
    contractor: u32,
    number: u32,
    first: Place,
    second: Place,
) -> Result<(), Refusal>
    ensures { CalledFor (move_run_for contractor number (point_of first) (point_of second)) (terms shares.now ceilings.now)
        (tables blocks.now runs.old pairs.old routes.old totals.old) holders.now
        (answer_of result) (tables blocks.now runs.new pairs.new routes.new totals.new) holders.now }
{
    own_answer_over(
        blocks, runs, pairs, routes, totals, holders, shares, ceilings, contractor, number,
    )?;
    move_run(blocks, runs, pairs, routes, totals, number, first, second)
}
