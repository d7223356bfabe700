// The edit that a record of a yard file asks for, called over five tables that the caller lends.
#![tactic(auto)]

ghost use Rattle.tables.specs.Tables.{tables};
ghost use Rattle.book.specs.Edits.{Called};
ghost use Rattle.fields.specs.Asked.{edit_of};
ghost use Rattle.apply.specs.inner.Whole.{Whole};
ghost use Rattle.refusals.specs.Numbers.{answer_of};

use block_edits::remove_block;
use fields::{add_block_at, add_run_at, move_block_at, move_run_at, set_charge_at};
use refusals::Refusal;
use run_edits::remove_run;
use yardfile::{Item, Kind};

// Calls the edit that a record asks for.
#[tactic(auto, unfolding(fields::specs::Asked::edit_for))]
pub fn apply(
    file: &[u8],
    item: Item,
    blocks: &mut [u16],
    runs: &mut [u16],
    pairs: &mut [u8],
    routes: &mut [u32],
    totals: &mut [u32],
) -> Result<(), Refusal>
    requires { Whole file.now item }
    ensures { Called (edit_of file.now item)
        (tables blocks.old runs.old pairs.old routes.old totals.old)
        (answer_of result) (tables blocks.new runs.new pairs.new routes.new totals.new) }
{
    let number = u32::from(item.number);
    let at = item.fields;
    match item.kind {
        Kind::AddBlock => add_block_at(file, at, blocks, runs, pairs, routes, totals, number),
        Kind::RemoveBlock => remove_block(blocks, runs, pairs, routes, totals, number),
        Kind::MoveBlock => move_block_at(file, at, blocks, runs, pairs, routes, totals, number),
        Kind::AddRun => add_run_at(file, at, blocks, runs, pairs, routes, totals, number),
        Kind::RemoveRun => remove_run(blocks, runs, pairs, routes, totals, number),
        Kind::MoveRun => move_run_at(file, at, blocks, runs, pairs, routes, totals, number),
        Kind::SetCharge => set_charge_at(file, at, blocks, runs, pairs, routes, totals),
    }
}
