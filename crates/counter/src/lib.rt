// A price at the counter: one run's route from the blocks and runs alone.
#![tactic(auto)]

ghost use Rattle.std.specs.Prelude.{◌≡◌};
ghost use Rattle.refusals.specs.Numbers.{answer_of};
ghost use Rattle.tables.specs.Tables.{stored};
ghost use Rattle.counter.specs.Quote.{quote_answer, RouteQuoted};

use refusals::Refusal;

// The first question that is answered no.
#[tactic(auto, unfolding(crate::specs::Quote::quote_answer, crate::specs::Quote::quote_lengths, book::specs::Questions::first_no))]
fn answer(blocks: &[u16], runs: &[u16], number: u32, route: &[u32]) -> Result<(), Refusal>
    ensures { answer_of result ≡ quote_answer (stored blocks.now runs.now) number route.now }
{
    if blocks.len() != 408 || runs.len() != 121 || route.len() != 197 {
        return Err(Refusal::WrongLengths);
    }
    if !records::records_right(blocks, runs) {
        return Err(Refusal::WrongRecords);
    }
    if 24 <= number {
        return Err(Refusal::NoSuchNumber);
    }
    let m = number as usize;
    if runs[5 * m] == 0 {
        return Err(Refusal::Absent);
    }
    Ok(())
}

// The route record of a run that the stored blocks and runs require, into the 197 words lent. Refused, they keep their contents.
pub fn quote_route(
    blocks: &[u16],
    runs: &[u16],
    number: u32,
    route: &mut [u32],
) -> Result<(), Refusal>
    ensures { RouteQuoted (stored blocks.now runs.now) number route.old (answer_of result) route.new }
{
    answer(blocks, runs, number, route)?;
    lazy_routes::route(blocks, runs, number as usize, route);
    Ok(())
}
