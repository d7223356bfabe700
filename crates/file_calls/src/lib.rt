// The reading and the replay of a yard file as calls that answer a number and leave their words in lent lists.
#![tactic(auto)]

ghost use Rattle.std.specs.Prelude.{◌≡◌};
ghost use Rattle.refusals.specs.Numbers.{answer_of};
ghost use Rattle.tables.specs.Tables.{tables};
ghost use Rattle.file_calls.specs.Reading.{ReadInto, words_of};
ghost use Rattle.file_calls.specs.Replaying.{ReplayedInto};

use refusals::Refusal;
use yardfile::Item;

// A record as four words: its kind, its number, where its fields start, and the position after it. Kind 0 is the end.
fn words_of(found: Option<Item>, at: usize) -> [u64; 4]
    ensures { result ≡ words_of found at }
{
    match found {
        Some(item) => [
            u64::from(item.kind.byte()),
            u64::from(item.number),
            item.fields as u64,
            item.next as u64,
        ],
        None => [0, 0, 0, at as u64],
    }
}

// The record of a yard file at a position, as four words.
pub fn read_into(file: &[u8], at: usize, item: &mut [u64]) -> Result<(), Refusal>
    ensures { ReadInto file.now at item.old (answer_of result) item.new }
{
    if item.len() != 4 {
        return Err(Refusal::WrongLengths);
    }
    let found = yardfile::read_from(file, at)?;
    item.copy_from_slice(&words_of(found, at));
    Ok(())
}

// The edits of a yard file, called in order up to its end or its stop; their answers, and two words: how many they are, and the position there.
pub fn replay_into(
    blocks: &mut [u16],
    runs: &mut [u16],
    pairs: &mut [u8],
    routes: &mut [u32],
    totals: &mut [u32],
    file: &[u8],
    answers: &mut [u32],
    end: &mut [u64],
) -> Result<(), Refusal>
    ensures { ReplayedInto file.now
        (tables blocks.old runs.old pairs.old routes.old totals.old)
        answers.old end.old (answer_of result) answers.new end.new
        (tables blocks.new runs.new pairs.new routes.new totals.new) }
{
    if end.len() != 2 {
        return Err(Refusal::WrongLengths);
    }
    let outcome = replay::replay(file, blocks, runs, pairs, routes, totals, answers)?;
    end.copy_from_slice(&[outcome.count as u64, outcome.at as u64]);
    match outcome.stop {
        Some(refusal) => Err(refusal),
        None => Ok(()),
    }
}
