// The quote of a duct: the best path of a run along the lines through every corner and its two ends.
#![tactic(auto)]

ghost use Rattle.std.specs.Prelude.{◌≡◌, [], ◌∷◌, ◌++◌, ℕ, ◌+◌, ◌*◌, ◌-◌, ◌/◌, ◌%◌, ◌<◌, ◌≤◌, length, take, set, map};
ghost use Rattle.lists.specs.inner.Filled.{filled};
ghost use Rattle.refusals.specs.Numbers.{answer_of};
ghost use Rattle.geometry.specs.Words.{word};
ghost use Rattle.geometry.specs.inner.Bounds.{Bounded};
ghost use Rattle.tables.specs.Tables.{stored};
ghost use Rattle.tables.specs.inner.Fit.{Fit};
ghost use Rattle.crossings.specs.Grid.{Crossing};
ghost use Rattle.crossings.specs.inner.Charts.{ruled, Ruled};
ghost use Rattle.crossings.specs.inner.Directions.{code};
ghost use Rattle.walks.specs.inner.Paths.{moved_by, visits};
ghost use Rattle.ducts.specs.Quote.{QuoteIs, DuctIs, standing, duct_lengths, duct_answer, DuctQuoted};
ghost use Rattle.ducts.specs.inner.Written.{spot_words};

use crossings::{Direction, crossing_at};
use lines::lines_of;
use lists::fill;
use records::records_right;
use refusals::Refusal;
use tables::place_of;
use walks::find_path;

// Ducts are quoted for yards of at most so many blocks.
const MOST_BLOCKS: usize = 8;

// The crossing that a step leads to.
#[tactic(auto, unfolding(walks::specs::inner::Paths::moved_by))]
fn moved(v: usize, d: Direction) -> usize
    requires { v < 4356 }
    ensures { result ≡ moved_by (code d) v }
{
    match d {
        Direction::West => v.saturating_sub(66),
        Direction::South => v.saturating_sub(1),
        Direction::North => v + 1,
        Direction::East => v + 66,
    }
}

// Writes crossing v as the k-th of a path.
fn put_crossing(xs: &[u16], ys: &[u16], v: usize, k: usize, crossings: &mut [u16])
    requires { (length xs.now ≡ 194) × (length ys.now ≡ 194) × (v < 4356) × (k < 4356) × (length crossings.old ≡ 8712) }
    ensures { crossings.new ≡ set (set crossings.old (2 * k) (word xs.now (v / 66))) (2 * k + 1) (word ys.now (v % 66)) }
{
    crossings[2 * k] = xs[v / 66];
    crossings[2 * k + 1] = ys[v % 66];
}

// Writes the n crossings of the path that the trail keeps.
fn write_path(
    xs: &[u16],
    ys: &[u16],
    trail: &[Direction],
    n: usize,
    start: usize,
    crossings: &mut [u16],
)
    requires lists { (length xs.now ≡ 194) × (length ys.now ≡ 194) × (length trail.now ≡ 4356) × (crossings.old ≡ filled 8712 0) }
    requires path { (1 ≤ n) × (n ≤ 4356) × ((i : ℕ) → i < n → word (visits start (take (n - 1) (map code trail.now))) i < 4356) }
    ensures { crossings.new ≡ spot_words xs.now ys.now (visits start (take (n - 1) (map code trail.now))) ++ filled (8712 - 2 * n) 0 }
{
    put_crossing(xs, ys, start, 0, crossings);
    let mut v = start;
    for k in 1..n {
        v = moved(v, trail[k - 1]);
        put_crossing(xs, ys, v, k, crossings);
    }
}

// How many blocks stand.
fn standing(blocks: &[u16]) -> usize
    requires { length blocks.now ≡ 408 }
    ensures { result ≡ standing blocks.now 24 }
{
    let mut count = 0;
    for n in 0..24 {
        count += usize::from(0 < blocks[17 * n]);
    }
    count
}

// Question 1.
#[tactic(auto, unfolding(crate::specs::Quote::duct_lengths))]
fn lengths_right(blocks: &[u16], runs: &[u16], quote: &[u32], crossings: &[u16]) -> bool
    ensures { result ≡ duct_lengths (stored blocks.now runs.now) quote.now crossings.now }
{
    blocks.len() == 408 && runs.len() == 121 && quote.len() == 3 && crossings.len() == 8712
}

// The first question that is answered no.
fn answer(
    blocks: &[u16],
    runs: &[u16],
    number: u32,
    quote: &[u32],
    crossings: &[u16],
) -> Result<(), Refusal>
    ensures { answer_of result ≡ duct_answer (stored blocks.now runs.now) number quote.now crossings.now }
{
    if !lengths_right(blocks, runs, quote, crossings) {
        return Err(Refusal::WrongLengths);
    }
    if !records_right(blocks, runs) {
        return Err(Refusal::WrongRecords);
    }
    if 24 <= number {
        return Err(Refusal::NoSuchNumber);
    }
    let m = number as usize;
    if runs[5 * m] == 0 {
        return Err(Refusal::Absent);
    }
    if MOST_BLOCKS < standing(blocks) {
        return Err(Refusal::TooManyBlocks);
    }
    Ok(())
}

fn fill_quote(quote: &mut [u32], state: u32, cost: u32, count: u32)
    requires { length quote.old ≡ 3 }
    ensures { quote.new ≡ state ∷ cost ∷ count ∷ [] }
{
    quote[0] = state;
    quote[1] = cost;
    quote[2] = count;
}

// The quote between two crossings.
fn quote_between(
    blocks: &[u16],
    xs: &[u16],
    nx: usize,
    ys: &[u16],
    ny: usize,
    start: usize,
    end: usize,
    quote: &mut [u32],
    crossings: &mut [u16],
)
    requires lines { (Bounded blocks.now) × (Ruled xs.now nx ys.now ny) }
    requires ends { (Crossing (ruled xs.now nx ys.now ny) start) × (Crossing (ruled xs.now nx ys.now ny) end) }
    requires lists { (length quote.old ≡ 3) × (length crossings.old ≡ 8712) }
    ensures { QuoteIs blocks.now (ruled xs.now nx ys.now ny) start end quote.new crossings.new }
{
    let mut trail = [Direction::West; 4356];
    let found = find_path(blocks, xs, nx, ys, ny, start, end, crossings, &mut trail);
    fill(crossings, 0);
    match found {
        Some(path) => {
            write_path(xs, ys, &trail, path.count, start, crossings);
            fill_quote(quote, 1, path.cost, path.count as u32);
        }
        None => fill_quote(quote, 2, 0, 0),
    }
}

// The quote of run m, of a yard of at most eight blocks.
fn price(blocks: &[u16], runs: &[u16], m: usize, quote: &mut [u32], crossings: &mut [u16])
    requires yard { (Fit (stored blocks.now runs.now)) × (m < 24) × (standing blocks.now 24 ≤ 8) }
    requires lists { (length quote.old ≡ 3) × (length crossings.old ≡ 8712) }
    ensures { DuctIs (stored blocks.now runs.now) m quote.new crossings.new }
{
    let mut xs = [0u16; 194];
    let nx = lines_of(blocks, runs, m, true, &mut xs);
    let mut ys = [0u16; 194];
    let ny = lines_of(blocks, runs, m, false, &mut ys);
    let start = crossing_at(&xs, nx, &ys, ny, place_of(blocks, runs, 192 + 2 * m));
    let end = crossing_at(&xs, nx, &ys, ny, place_of(blocks, runs, 193 + 2 * m));
    quote_between(blocks, &xs, nx, &ys, ny, start, end, quote, crossings);
}

// The quote of a duct for run number: state, cost and count, and its crossings from end to end.
pub fn quote_duct(
    blocks: &[u16],
    runs: &[u16],
    number: u32,
    quote: &mut [u32],
    crossings: &mut [u16],
) -> Result<(), Refusal>
    ensures { DuctQuoted (stored blocks.now runs.now) number quote.old crossings.old
        (answer_of result) quote.new crossings.new }
{
    answer(blocks, runs, number, quote, crossings)?;
    price(blocks, runs, number as usize, quote, crossings);
    Ok(())
}
