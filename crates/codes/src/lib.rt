// Whether a block hides a straight, by the codes of both ends: which sides of the block each is not strictly left of.
#![tactic(auto)]

ghost use Rattle.std.specs.Prelude.{◌≡◌, true, ◌+◌, ◌<◌, ◌≤◌, pos, length};
ghost use Rattle.lists.specs.inner.Tells.{Tells};
ghost use Rattle.geometry.specs.Words.{point_of, block_words};
ghost use Rattle.geometry.specs.Obstruction.{turn, Hidden};
ghost use Rattle.geometry.specs.inner.Bounds.{BoundedRecord};
ghost use Rattle.tables.specs.Tables.{stored, place_of};
ghost use Rattle.codes.specs.inner.Codes.{Starts, Ends, SideIs, CornerSide, CodesAre, Met, Coded, Beside, BesideAll, PassedBy, Looked};

use bits::with_bit;
use geometry::{Place, corner, turn};

// The side of a straight that a place is on.
#[derive(Clone, Copy, Debug, PartialEq, Eq)]
enum Side {
    Right,
    On,
    Left,
}

// What a straight has of a block: it misses it, it may touch it but is not hidden, or it is hidden.
#[derive(Clone, Copy, Debug, PartialEq, Eq)]
pub enum Meeting {
    Misses,
    Touches,
    Hides,
}

// What a look along a straight finds: the lowest block that hides it, if one does, and as bits those of the blocks
// before it that the straight may touch, unless it is beside them.
#[derive(Clone, Copy)]
pub struct Sight {
    pub hider: Option<usize>,
    pub opened: u64,
}

// The first side of a run of set bits: its bit is set, and the bit before, cyclically, is clear.
fn first(c: u8) -> usize
    requires { (0 < c) × (c < 255) }
    ensures { Starts c result }
{
    let s = c & !(c << 1 | c >> 7);
    u8::trailing_zeros(s) as usize
}

// The side after a run of set bits: its bit is clear, and the bit before, cyclically, is set.
fn after(c: u8) -> usize
    requires { (0 < c) × (c < 255) }
    ensures { Ends c result }
{
    let s = c & !(c >> 1 | c << 7);
    (u8::trailing_zeros(s) as usize + 1) % 8
}

// The side of the straight from a to b that v is on.
fn side_of(a: Place, b: Place, v: Place) -> Side
    ensures { SideIs (turn (point_of a) (point_of b) 1 (pos v.east) (pos v.north)) result }
{
    let t = turn(a, b, v);
    if t < 0 {
        Side::Right
    } else if 0 < t {
        Side::Left
    } else {
        Side::On
    }
}

// The side that corner k of a block record is on.
fn corner_side(words: &[u16], k: usize, a: Place, b: Place) -> Side
    requires { (BoundedRecord words.now) × (k < 8) }
    ensures { CornerSide words.now k (point_of a) (point_of b) result }
{
    side_of(a, b, corner(words, k))
}

// What the straight from a to b, whose codes against a block are ci and cj, has of it.
pub fn meets(words: &[u16], ci: u8, cj: u8, a: Place, b: Place) -> Meeting
    requires { CodesAre words.now ci cj (point_of a) (point_of b) }
    ensures { Met words.now (point_of a) (point_of b) result }
{
    if ci & cj != 0 {
        return Meeting::Touches;
    }
    if ci == 0 || cj == 0 {
        return Meeting::Hides;
    }
    let f = corner_side(words, first(ci), a, b);
    if f == Side::Right {
        return Meeting::Misses;
    }
    let g = corner_side(words, after(ci), a, b);
    if g == Side::Left {
        return Meeting::Misses;
    }
    if f == Side::On || g == Side::On {
        return Meeting::Touches;
    }
    Meeting::Hides
}

// Whether some side of block n has marks i and j both not strictly left of it, so that the block does not hide their straight.
pub fn is_beside(codes: &[u8], n: usize, i: usize, j: usize) -> bool
    requires { (length codes.now ≡ 5760) × (n < 24) × (i < 240) × (j < 240) }
    ensures { Tells (Beside codes.now n i j) result }
{
    codes[240 * n + i] & codes[240 * n + j] != 0
}

// What the straight between marks i and j, at a and b, has of block n.
fn meets_block(
    blocks: &[u16],
    runs: &[u16],
    codes: &[u8],
    n: usize,
    i: usize,
    j: usize,
    a: Place,
    b: Place,
) -> Meeting
    requires coded { (Coded (stored blocks.now runs.now) codes.now) × (n < 24) × (i < 240) × (j < 240) }
    requires a_value { (point_of a ≡ place_of (stored blocks.now runs.now) i) × (point_of b ≡ place_of (stored blocks.now runs.now) j) }
    ensures { Met (block_words blocks.now n) (point_of a) (point_of b) result }
{
    let ci = codes[240 * n + i];
    let cj = codes[240 * n + j];
    meets(&blocks[17 * n..17 * n + 17], ci, cj, a, b)
}

// Whether block n hides the straight between marks i and j, at a and b.
pub fn hides(
    blocks: &[u16],
    runs: &[u16],
    codes: &[u8],
    n: usize,
    i: usize,
    j: usize,
    a: Place,
    b: Place,
) -> bool
    requires coded { (Coded (stored blocks.now runs.now) codes.now) × (n < 24) × (i < 240) × (j < 240) }
    requires a_value { (point_of a ≡ place_of (stored blocks.now runs.now) i) × (point_of b ≡ place_of (stored blocks.now runs.now) j) }
    ensures { Tells (Hidden blocks.now n (point_of a) (point_of b)) result }
{
    meets_block(blocks, runs, codes, n, i, j, a, b) == Meeting::Hides
}

// Whether the straight between marks i and j is beside four blocks, from block n on.
fn are_beside(codes: &[u8], n: usize, i: usize, j: usize) -> bool
    requires { (length codes.now ≡ 5760) × (n ≤ 20) × (i < 240) × (j < 240) }
    ensures { result ≡ true → BesideAll codes.now i j n (n + 4) }
{
    is_beside(codes, n, i, j)
        && is_beside(codes, n + 1, i, j)
        && is_beside(codes, n + 2, i, j)
        && is_beside(codes, n + 3, i, j)
}

// Passes blocks four at a time, from `from` on, while the straight is beside all four; answers where it stopped.
fn pass_by(codes: &[u8], from: usize, i: usize, j: usize) -> usize
    requires { (length codes.now ≡ 5760) × (from ≤ 24) × (i < 240) × (j < 240) }
    ensures { PassedBy codes.now i j from result }
{
    let mut n = from;
    while n <= 20 && are_beside(codes, n, i, j) {
        n += 4;
    }
    n
}

// What a look along the straight between marks i and j, at a and b, finds.
pub fn look(
    blocks: &[u16],
    runs: &[u16],
    codes: &[u8],
    i: usize,
    j: usize,
    a: Place,
    b: Place,
) -> Sight
    requires coded { (Coded (stored blocks.now runs.now) codes.now) × (i < 240) × (j < 240) }
    requires a_value { (point_of a ≡ place_of (stored blocks.now runs.now) i) × (point_of b ≡ place_of (stored blocks.now runs.now) j) }
    ensures { Looked blocks.now codes.now i j (point_of a) (point_of b) result.hider result.opened }
{
    let mut opened = 0;
    let mut n = pass_by(codes, 0, i, j);
    while n < 24 {
        if is_beside(codes, n, i, j) {
            n += 1;
            continue;
        }
        match meets_block(blocks, runs, codes, n, i, j, a, b) {
            Meeting::Hides => {
                return Sight {
                    hider: Some(n),
                    opened,
                };
            }
            Meeting::Touches => opened = with_bit(opened, n as u32),
            Meeting::Misses => {}
        }
        n = pass_by(codes, n + 1, i, j);
    }
    Sight {
        hider: None,
        opened,
    }
}
