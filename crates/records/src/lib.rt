// Questions 2, 6, 7, 8 and 13, and the record of a new block.
#![tactic(auto)]

ghost use Rattle.std.specs.Prelude.{◌≡◌, true, ◌+◌, ◌*◌, ◌<◌, length};
ghost use Rattle.geometry.specs.Words.{point_of, block_words, corners};
ghost use Rattle.lists.specs.Lists.{all_below, all};
ghost use Rattle.tables.specs.Tables.{stored, run_words};
ghost use Rattle.tables.specs.Written.{block_record};
ghost use Rattle.records.specs.Questions.{count_right, coordinate_right, place_right, lent_places, zero_from, block_right, run_right, figure_right, records_right};

use geometry::{Place, is_convex};
use tables::figure_of;

// Question 6: whether the lent words are 3 to 8 whole corners.
#[tactic(auto, unfolding(crate::specs::Questions::count_right))]
pub fn count_right(corners: &[u16]) -> bool
    ensures { result ≡ count_right corners.now }
{
    let count = corners.len();
    6 <= count && count <= 16 && count % 2 == 0
}

// Question 7 of every word.
pub fn coordinates_right(words: &[u16]) -> bool
    ensures { result ≡ all coordinate_right words.now }
{
    words.iter().all(|word| *word <= 32767)
}

// Question 7 of a place.
pub fn place_right(p: Place) -> bool
    ensures { result ≡ place_right (point_of p) }
{
    p.east <= 32767 && p.north <= 32767
}

// Whether every word is 0.
fn all_zero(words: &[u16]) -> bool
    ensures { result ≡ zero_from words.now 0 }
{
    words.iter().all(|word| *word == 0)
}

// Question 2 of a block record.
#[tactic(auto, using(crate::proofs::Loops::block_bounded), unfolding(crate::specs::Questions::block_right, crate::specs::Questions::zero_from))]
fn block_right(words: &[u16]) -> bool
    requires { length words.now ≡ 17 }
    ensures { result ≡ block_right words.now }
{
    if all_zero(words) {
        return true;
    }
    let count = usize::from(words[0]);
    if count < 3 || 8 < count {
        return false;
    }
    all_zero(&words[1 + 2 * count..]) && coordinates_right(&words[1..]) && is_convex(words)
}

// Question 2 of a run record.
#[tactic(auto, unfolding(crate::specs::Questions::run_right))]
fn run_right(words: &[u16]) -> bool
    requires { length words.now ≡ 5 }
    ensures { result ≡ run_right words.now }
{
    all_zero(words) || words[0] == 1 && coordinates_right(&words[1..])
}

// Question 2 of the block table.
fn blocks_right(blocks: &[u16]) -> bool
    requires { length blocks.now ≡ 408 }
    ensures { result ≡ all_below 24 (λ n. block_right (block_words blocks.now n)) }
{
    for n in 0..24 {
        if !block_right(&blocks[17 * n..17 * n + 17]) {
            return false;
        }
    }
    true
}

// Question 2 of the run table.
fn runs_right(runs: &[u16]) -> bool
    requires { length runs.now ≡ 121 }
    ensures { result ≡ all_below 24 (λ m. run_right (run_words runs.now m)) }
{
    for m in 0..24 {
        if !run_right(&runs[5 * m..5 * m + 5]) {
            return false;
        }
    }
    true
}

// Question 13, and question 2 of the stored figure.
pub fn figure_right(figure: u64) -> bool
    ensures { result ≡ figure_right figure }
{
    figure <= 1000
}

// Question 2.
#[tactic(auto, unfolding(crate::specs::Questions::records_right))]
pub fn records_right(blocks: &[u16], runs: &[u16]) -> bool
    requires { (length blocks.now ≡ 408) × (length runs.now ≡ 121) }
    ensures { result ≡ records_right (stored blocks.now runs.now) }
{
    blocks_right(blocks) && runs_right(runs) && figure_right(figure_of(runs))
}

// The record of a new block.
#[tactic(auto, unfolding(crate::specs::Questions::count_right))]
pub fn new_record(corners: &[u16]) -> [u16; 17]
    requires { count_right corners.now ≡ true }
    ensures { result ≡ block_record (lent_places corners.now) }
{
    let mut made = [0u16; 17];
    made[0] = (corners.len() / 2) as u16;
    made[1..corners.len() + 1].copy_from_slice(corners);
    made
}
