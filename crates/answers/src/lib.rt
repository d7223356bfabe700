// The questions put to each edit, in order: the first that is answered no, over any tables.
#![tactic(auto)]

ghost use Rattle.std.specs.Prelude.{◌≡◌, ◌&&◌};
ghost use Rattle.refusals.specs.Numbers.{answer_of};
ghost use Rattle.geometry.specs.Words.{point_of};
ghost use Rattle.tables.specs.Tables.{tables};
ghost use Rattle.records.specs.Questions.{place_right};
ghost use Rattle.book.specs.Questions.{lengths_right};
ghost use Rattle.book.specs.Book.{add_block, remove_block, move_block, add_run, remove_run, move_run, set_charge};
ghost use Rattle.book.specs.Edits.{fitness, answer_over};
ghost use Rattle.book.specs.inner.Named.{named};

use geometry::{Place, is_convex};
use moves::shifts_right;
use records::{
    coordinates_right, count_right, figure_right, new_record, place_right, records_right,
};
use refusals::Refusal;

// Question 1.
#[tactic(auto, unfolding(book::specs::Questions::lengths_right))]
pub fn lengths_right(
    blocks: &[u16],
    runs: &[u16],
    pairs: &[u8],
    routes: &[u32],
    totals: &[u32],
) -> bool
    ensures { result ≡ lengths_right (tables blocks.now runs.now pairs.now routes.now totals.now) }
{
    blocks.len() == 408
        && runs.len() == 121
        && pairs.len() == 28680
        && routes.len() == 4728
        && totals.len() == 25
}

// Questions 1 and 2.
pub fn fitness(
    blocks: &[u16],
    runs: &[u16],
    pairs: &[u8],
    routes: &[u32],
    totals: &[u32],
) -> Result<(), Refusal>
    ensures { answer_of result ≡ fitness (tables blocks.now runs.now pairs.now routes.now totals.now) }
{
    if !lengths_right(blocks, runs, pairs, routes, totals) {
        return Err(Refusal::WrongLengths);
    }
    if !records_right(blocks, runs) {
        return Err(Refusal::WrongRecords);
    }
    Ok(())
}

// Questions 1 to 3.
pub fn named(
    blocks: &[u16],
    runs: &[u16],
    pairs: &[u8],
    routes: &[u32],
    totals: &[u32],
    number: u32,
) -> Result<(), Refusal>
    ensures { answer_of result ≡ named (tables blocks.now runs.now pairs.now routes.now totals.now) number }
{
    fitness(blocks, runs, pairs, routes, totals)?;
    if 24 <= number {
        return Err(Refusal::NoSuchNumber);
    }
    Ok(())
}

pub fn add_block_answer(
    blocks: &[u16],
    runs: &[u16],
    pairs: &[u8],
    routes: &[u32],
    totals: &[u32],
    number: u32,
    corners: &[u16],
) -> Result<(), Refusal>
    ensures { answer_of result ≡ answer_over (tables blocks.now runs.now pairs.now routes.now totals.now)
        (add_block number corners.now) }
{
    named(blocks, runs, pairs, routes, totals, number)?;
    let n = number as usize;
    if blocks[17 * n] != 0 {
        return Err(Refusal::Taken);
    }
    if !count_right(corners) {
        return Err(Refusal::WrongCount);
    }
    if !coordinates_right(corners) {
        return Err(Refusal::OffTheYard);
    }
    let words = new_record(corners);
    if !is_convex(&words) {
        return Err(Refusal::NotConvex);
    }
    Ok(())
}

pub fn remove_block_answer(
    blocks: &[u16],
    runs: &[u16],
    pairs: &[u8],
    routes: &[u32],
    totals: &[u32],
    number: u32,
) -> Result<(), Refusal>
    ensures { answer_of result ≡ answer_over (tables blocks.now runs.now pairs.now routes.now totals.now)
        (remove_block number) }
{
    named(blocks, runs, pairs, routes, totals, number)?;
    let n = number as usize;
    if blocks[17 * n] == 0 {
        return Err(Refusal::Absent);
    }
    Ok(())
}

pub fn move_block_answer(
    blocks: &[u16],
    runs: &[u16],
    pairs: &[u8],
    routes: &[u32],
    totals: &[u32],
    number: u32,
    east: i16,
    north: i16,
) -> Result<(), Refusal>
    ensures { answer_of result ≡ answer_over (tables blocks.now runs.now pairs.now routes.now totals.now)
        (move_block number east north) }
{
    named(blocks, runs, pairs, routes, totals, number)?;
    let n = number as usize;
    if blocks[17 * n] == 0 {
        return Err(Refusal::Absent);
    }
    if !shifts_right(&blocks[17 * n..17 * n + 17], east, north) {
        return Err(Refusal::OffTheYard);
    }
    Ok(())
}

// Question 7 of a run's two ends.
fn ends_right(first: Place, second: Place) -> bool
    ensures { result ≡ place_right (point_of first) && place_right (point_of second) }
{
    place_right(first) && place_right(second)
}

pub fn add_run_answer(
    blocks: &[u16],
    runs: &[u16],
    pairs: &[u8],
    routes: &[u32],
    totals: &[u32],
    number: u32,
    first: Place,
    second: Place,
) -> Result<(), Refusal>
    ensures { answer_of result ≡ answer_over (tables blocks.now runs.now pairs.now routes.now totals.now)
        (add_run number (point_of first) (point_of second)) }
{
    named(blocks, runs, pairs, routes, totals, number)?;
    let m = number as usize;
    if runs[5 * m] != 0 {
        return Err(Refusal::Taken);
    }
    if !ends_right(first, second) {
        return Err(Refusal::OffTheYard);
    }
    Ok(())
}

pub fn remove_run_answer(
    blocks: &[u16],
    runs: &[u16],
    pairs: &[u8],
    routes: &[u32],
    totals: &[u32],
    number: u32,
) -> Result<(), Refusal>
    ensures { answer_of result ≡ answer_over (tables blocks.now runs.now pairs.now routes.now totals.now)
        (remove_run number) }
{
    named(blocks, runs, pairs, routes, totals, number)?;
    let m = number as usize;
    if runs[5 * m] == 0 {
        return Err(Refusal::Absent);
    }
    Ok(())
}

pub fn move_run_answer(
    blocks: &[u16],
    runs: &[u16],
    pairs: &[u8],
    routes: &[u32],
    totals: &[u32],
    number: u32,
    first: Place,
    second: Place,
) -> Result<(), Refusal>
    ensures { answer_of result ≡ answer_over (tables blocks.now runs.now pairs.now routes.now totals.now)
        (move_run number (point_of first) (point_of second)) }
{
    named(blocks, runs, pairs, routes, totals, number)?;
    let m = number as usize;
    if runs[5 * m] == 0 {
        return Err(Refusal::Absent);
    }
    if !ends_right(first, second) {
        return Err(Refusal::OffTheYard);
    }
    Ok(())
}

pub fn set_charge_answer(
    blocks: &[u16],
    runs: &[u16],
    pairs: &[u8],
    routes: &[u32],
    totals: &[u32],
    figure: u16,
) -> Result<(), Refusal>
    ensures { answer_of result ≡ answer_over (tables blocks.now runs.now pairs.now routes.now totals.now)
        (set_charge figure) }
{
    fitness(blocks, runs, pairs, routes, totals)?;
    if !figure_right(u64::from(figure)) {
        return Err(Refusal::FigureTooHigh);
    }
    Ok(())
}
