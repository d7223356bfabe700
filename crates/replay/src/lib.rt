// Replays the edits of a yard file over five tables that the caller lends.
#![tactic(auto)]

ghost use Rattle.std.specs.Prelude.{◌≡◌, ◌≤◌, length, MatchResult};
ghost use Rattle.refusals.specs.Numbers.{number_of};
ghost use Rattle.refusals.specs.declared.Refusal.TheVariants.{WrongLengths};
ghost use Rattle.tables.specs.Tables.{tables};
ghost use Rattle.replay.specs.Replay.{stop_at, stop_number, EditsCalled, Replayed, count_of, number_answered, at_of};

use apply::apply;
use refusals::{Refusal, answer};
use yardfile::read_from;

// How a replay ended: how many edits were called, the stop, none at the file's end, and the position there.
#[derive(Clone, Copy, Debug, PartialEq, Eq)]
pub struct Outcome {
    pub count: usize,
    pub stop: Option<Refusal>,
    pub at: usize,
}

impl Outcome {
    // The number of the stop, 0 at the file's end.
    pub fn number(self) -> u32
        ensures { result ≡ stop_number self.stop }
    {
        match self.stop {
            Some(refusal) => refusal.number(),
            None => 0,
        }
    }
}

// The position that a stop names.
fn stop_position(refusal: Refusal, at: usize) -> usize
    ensures { result ≡ stop_at (number_of refusal) at }
{
    match refusal {
        Refusal::NoYardFile => 0,
        _ => at,
    }
}

// Calls the edits of a yard file in order, up to its end or its stop, and stores their answers.
fn call_edits(
    file: &[u8],
    blocks: &mut [u16],
    runs: &mut [u16],
    pairs: &mut [u8],
    routes: &mut [u32],
    totals: &mut [u32],
    answers: &mut [u32],
) -> Outcome
    requires { 4096 ≤ length answers.old }
    ensures { EditsCalled file.now
        (tables blocks.old runs.old pairs.old routes.old totals.old)
        answers.old answers.new result.count (stop_number result.stop) result.at
        (tables blocks.new runs.new pairs.new routes.new totals.new) }
{
    let mut count: usize = 0;
    let mut at: usize = 5;
    loop {
        match read_from(file, at) {
            Ok(Some(item)) => {
                let answer = answer(apply(file, item, blocks, runs, pairs, routes, totals));
                answers[count] = answer;
                count += 1;
                at = item.next;
            }
            Ok(None) => {
                return Outcome {
                    count,
                    stop: None,
                    at,
                };
            }
            Err(refusal) => {
                return Outcome {
                    count,
                    stop: Some(refusal),
                    at: stop_position(refusal, at),
                };
            }
        }
    }
}

// Replays a yard file where 4,096 answers can be stored: a file has at most 4,093 records.
pub fn replay(
    file: &[u8],
    blocks: &mut [u16],
    runs: &mut [u16],
    pairs: &mut [u8],
    routes: &mut [u32],
    totals: &mut [u32],
    answers: &mut [u32],
) -> Result<Outcome, Refusal>
    ensures replayed { Replayed file.now
        (tables blocks.old runs.old pairs.old routes.old totals.old)
        answers.old answers.new (count_of result) (number_answered result) (at_of result)
        (tables blocks.new runs.new pairs.new routes.new totals.new) }
    ensures refused { MatchResult result (λ o. 4096 ≤ length answers.old) (λ e. e ≡ WrongLengths) }
{
    if answers.len() < 4096 {
        return Err(Refusal::WrongLengths);
    }
    Ok(call_edits(file, blocks, runs, pairs, routes, totals, answers))
}
