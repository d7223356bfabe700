// The layout of the tables: marks, their places, and where the byte of two marks stands.
#![tactic(auto)]

ghost use Rattle.std.specs.Prelude.{◌≡◌, ◌+◌, ◌*◌, ◌<◌, length};
ghost use Rattle.geometry.specs.Words.{point_of, place_at};
ghost use Rattle.tables.specs.Tables.{stored, figure_of, is_corner, is_end, present, place_of, pair_index, pair_byte};

use geometry::Place;

// Whether mark i is a corner of a present block.
#[tactic(auto, unfolding(crate::specs::Tables::is_corner))]
pub fn is_corner(blocks: &[u16], i: usize) -> bool
    requires { length blocks.now ≡ 408 }
    ensures { result ≡ is_corner blocks.now i }
{
    i < 192 && i % 8 < usize::from(blocks[17 * (i / 8)])
}

// Whether mark i is an end of a present run.
#[tactic(auto, unfolding(crate::specs::Tables::is_end))]
pub fn is_end(runs: &[u16], i: usize) -> bool
    requires { length runs.now ≡ 121 }
    ensures { result ≡ is_end runs.now i }
{
    192 <= i && i < 240 && runs[5 * ((i - 192) / 2)] == 1
}

// Whether mark i is present.
#[tactic(auto, unfolding(crate::specs::Tables::present))]
pub fn is_present(blocks: &[u16], runs: &[u16], i: usize) -> bool
    requires { (length blocks.now ≡ 408) × (length runs.now ≡ 121) }
    ensures { result ≡ present (stored blocks.now runs.now) i }
{
    is_corner(blocks, i) || is_end(runs, i)
}

// What a straight longer than 0 is charged at least.
pub fn figure_of(runs: &[u16]) -> u64
    requires { length runs.now ≡ 121 }
    ensures { result ≡ figure_of runs.now }
{
    u64::from(runs[120])
}

// The place whose coordinates stand at word at and the next.
fn place_at(words: &[u16], at: usize) -> Place
    requires { at + 1 < length words.now }
    ensures { point_of result ≡ place_at words.now at }
{
    Place {
        east: words[at],
        north: words[at + 1],
    }
}

// The place of mark i.
#[tactic(auto, unfolding(crate::specs::Tables::place_of))]
pub fn place_of(blocks: &[u16], runs: &[u16], i: usize) -> Place
    requires { (length blocks.now ≡ 408) × (length runs.now ≡ 121) × (i < 240) }
    ensures { point_of result ≡ place_of (stored blocks.now runs.now) i }
{
    if i < 192 {
        place_at(blocks, 17 * (i / 8) + 1 + 2 * (i % 8))
    } else {
        let k = i - 192;
        place_at(runs, 5 * (k / 2) + 1 + 2 * (k % 2))
    }
}

// Where the byte of marks i < j stands.
pub fn pair_index(i: usize, j: usize) -> usize
    requires { (i < j) × (j < 240) }
    ensures value { result ≡ pair_index i j }
    ensures below { result < 28680 }
{
    j * (j - 1) / 2 + i
}

// The byte of two different marks, in either order.
#[tactic(auto, unfolding(crate::specs::Tables::pair_byte))]
pub fn pair_byte(pairs: &[u8], i: usize, j: usize) -> u8
    requires { (length pairs.now ≡ 28680) × (i < 240) × (j < 240) × (i ≡ j → ⊥) }
    ensures { result ≡ pair_byte pairs.now i j }
{
    let at = if i < j {
        pair_index(i, j)
    } else {
        pair_index(j, i)
    };
    pairs[at]
}
