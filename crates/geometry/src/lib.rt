// Exact geometry on whole centimetres: turns, obstruction and convexity.
#![tactic(auto)]

ghost use Rattle.std.specs.Prelude.{◌≡◌, ◌⊎◌, ◌+◌, ◌*◌, ◌%◌, ◌<◌, ◌≤◌, min, max, pos, ◌-ℤ◌, ◌*ℤ◌, ◌<ℤ◌};
ghost use Rattle.std.specs.Int.Signed.{lt_z};
ghost use Rattle.std.specs.Int.{w64};
ghost use Rattle.std.proofs.Common.{SFits};
ghost use Rattle.geometry.specs.Words.{point_of, word, corners};
ghost use Rattle.geometry.specs.inner.Bounds.{BoundedRecord, Bounded, InRange};
ghost use Rattle.geometry.specs.Obstruction.{turn, side_turn, Obstructs};
ghost use Rattle.geometry.specs.Overlap.{Overlaps};
ghost use Rattle.geometry.specs.Convexity.{side_test, convex};
ghost use Rattle.lists.specs.Lists.{all_below};
ghost use Rattle.geometry.specs.inner.Overlapping.{Across, FirstOverlapping};
ghost use Rattle.geometry.specs.inner.Sides.{Within, SmallSpan, NarrowedSpan, Meets};
ghost use Rattle.lists.specs.inner.Tells.{Tells};
ghost use Rattle.geometry.specs.inner.Search.{Lowest};

use coordinates::{Limit, any_past};

// A place: east, then north.
#[derive(Clone, Copy)]
pub struct Place {
    pub east: u16,
    pub north: u16,
}

// The tightest two of the sides passed, by the turns of both ends: (l, r) of those that the first end is not left of,
// (p, q) of those that the second end is not left of.
#[derive(Clone, Copy)]
pub struct Span {
    pub l: i64,
    pub r: i64,
    pub p: i64,
    pub q: i64,
}

pub fn difference(a: u16, b: u16) -> i64
    ensures { result ≡ pos a -ℤ pos b }
{
    i64::from(a) - i64::from(b)
}

fn area(a: u16, b: u16, c: u16, d: u16) -> i64
    ensures { result ≡ (pos a -ℤ pos b) *ℤ (pos c -ℤ pos d) }
{
    difference(a, b) * difference(c, d)
}

// Above 0 where x lies strictly left of the side from p to q, 0 where it lies on the side's line, below 0 where right.
pub fn turn(p: Place, q: Place, x: Place) -> i64
    ensures { result ≡ turn (point_of p) (point_of q) 1 (pos x.east) (pos x.north) }
{
    area(q.east, p.east, x.north, p.north) - area(q.north, p.north, x.east, p.east)
}

// The number of the corner after corner k, of m.
pub fn next(k: usize, m: usize) -> usize
    requires { (k < m) × (m ≤ 8) }
    ensures value { result ≡ (k + 1) % m }
    ensures below { result < m }
{
    if k + 1 < m { k + 1 } else { 0 }
}

// Corner k of a block record.
pub fn corner(words: &[u16], k: usize) -> Place
    requires { (BoundedRecord words.now) × (k < 8) }
    ensures { (result.east ≡ word words.now (2 * k + 1)) × (result.north ≡ word words.now (2 * k + 2)) }
{
    Place {
        east: words[2 * k + 1],
        north: words[2 * k + 2],
    }
}

// The turn of x against side k of a block record.
pub fn side(words: &[u16], k: usize, x: Place) -> i64
    requires { (BoundedRecord words.now) × (k < word words.now 0) × (InRange (point_of x)) }
    ensures value { result ≡ side_turn (corners words.now) (point_of x) k }
    ensures small { Within 2200000000 result }
{
    let m = words[0] as usize;
    let p = corner(words, k);
    let q = corner(words, next(k, m));
    turn(p, q, x)
}

// Whether x / y < l / r, where y and r are above 0.
pub fn steeper(x: i64, y: i64, l: i64, r: i64) -> bool
    requires { (Within 2200000000 x) × (Within 2200000000 y) × (Within 2200000000 l) × (Within 2200000000 r) }
    ensures { result ≡ lt_z (x *ℤ r) (l *ℤ y) }
{
    x * r < l * y
}

impl Span {
    // The whole segment: no side is passed.
    pub const WHOLE: Span = Span {
        l: 1,
        r: 1,
        p: 1,
        q: 1,
    };

    // The two kept sides after the side whose turns are x and y.
    pub fn narrow(self, x: i64, y: i64) -> Span
        requires small { SmallSpan self }
        requires side { (Within 2200000000 x) × (Within 2200000000 y) × ((pos 0 <ℤ x) ⊎ (pos 0 <ℤ y)) }
        ensures { NarrowedSpan self x y result }
    {
        if 0 < x {
            if 0 < y {
                return self;
            }
            if steeper(y, x, self.q, self.p) {
                return Span { p: x, q: y, ..self };
            }
            return self;
        }
        if steeper(x, y, self.l, self.r) {
            return Span { l: x, r: y, ..self };
        }
        self
    }

    // Whether some point of the segment is left of both kept sides.
    pub fn parted(self) -> bool
        requires small { SmallSpan self }
        requires above { (pos 0 <ℤ self.r) × (pos 0 <ℤ self.p) }
        ensures { Tells (Meets self.l self.r self.p self.q) result }
    {
        0 < self.l || 0 < self.q || steeper(self.l, self.r, self.p, self.q)
    }
}

// Whether one of the two is above 0.
pub fn either(x: i64, y: i64) -> bool
    ensures { Tells ((pos 0 <ℤ x) ⊎ (pos 0 <ℤ y)) result }
{
    0 < x || 0 < y
}

// Whether a block record and a segment overlap along a coordinate, which the segment's ends have at p and q: east where i is 1,
// north where it is 2. A part of its callers: blocks that lie far off are passed without a call.
#[inline(always)]
fn abreast(words: &[u16], i: usize, p: u16, q: u16) -> bool
    requires { (BoundedRecord words.now) × (i ≤ 2) }
    ensures { Tells (Across words.now i p q) result }
{
    any_past(words, i, Limit::Above(p.min(q))) && any_past(words, i, Limit::Below(p.max(q)))
}

// Whether the enclosing rectangles of a block record and of the segment from a to b overlap. A block that lies far off
// is left at the first of the four conditions that no corner meets.
pub fn overlaps(words: &[u16], a: Place, b: Place) -> bool
    requires { BoundedRecord words.now }
    ensures { Tells (Overlaps (corners words.now) (point_of a) (point_of b)) result }
{
    abreast(words, 1, a.east, b.east) && abreast(words, 2, a.north, b.north)
}

// The first of the blocks from..to that overlaps the segment from a to b. A function of its own, so that passing far blocks
// and going round sides each have the registers to themselves.
#[inline(never)]
fn first_overlapping(blocks: &[u16], from: usize, to: usize, a: Place, b: Place) -> Option<usize>
    requires { (Bounded blocks.now) × (to ≤ 24) }
    ensures { FirstOverlapping blocks.now from to (point_of a) (point_of b) result }
{
    for n in from..to {
        if overlaps(&blocks[17 * n..17 * n + 17], a, b) {
            return Some(n);
        }
    }
    None
}

// Whether the polygon of a block record hides the segment from a to b.
fn hides(words: &[u16], a: Place, b: Place) -> bool
    requires { (BoundedRecord words.now) × (InRange (point_of a)) × (InRange (point_of b)) }
    ensures { Tells ((0 < word words.now 0) × Obstructs (corners words.now) (point_of a) (point_of b)) result }
{
    let count = words[0] as usize;
    let mut kept = Span::WHOLE;
    for k in 0..count {
        let x = side(words, k, a);
        let y = side(words, k, b);
        if !either(x, y) {
            return false;
        }
        kept = kept.narrow(x, y);
    }
    0 < count && kept.parted()
}

// The lowest block of the numbers from..to that hides the segment from a to b.
pub fn lowest_hider(blocks: &[u16], from: usize, to: usize, a: Place, b: Place) -> Option<usize>
    requires blocks { Bounded blocks.now }
    requires range { to ≤ 24 }
    requires ends { (InRange (point_of a)) × (InRange (point_of b)) }
    ensures { Lowest blocks.now from to (point_of a) (point_of b) result }
{
    let mut left = from;
    while let Some(n) = first_overlapping(blocks, left, to, a, b) {
        if hides(&blocks[17 * n..17 * n + 17], a, b) {
            return Some(n);
        }
        left = n + 1;
    }
    None
}

// Whether corner l of a block record is an end of side k or strictly left of it.
fn is_left(words: &[u16], k: usize, l: usize) -> bool
    requires { (BoundedRecord words.now) × (k < word words.now 0) × (l < word words.now 0) }
    ensures { result ≡ side_test (corners words.now) k l }
{
    let m = words[0] as usize;
    l == k || l == next(k, m) || 0 < side(words, k, corner(words, l))
}

// Whether every other corner of a block record is strictly left of side k.
fn all_left(words: &[u16], k: usize) -> bool
    requires { (BoundedRecord words.now) × (k < word words.now 0) }
    ensures { result ≡ all_below (word words.now 0) (λ l. side_test (corners words.now) k l) }
{
    for l in 0..words[0] as usize {
        if !is_left(words, k, l) {
            return false;
        }
    }
    true
}

// Question 8 of a block record. Kept apart: in a caller that tests the count first the compiler writes out all eight rounds,
// which takes longer.
#[inline(never)]
pub fn is_convex(words: &[u16]) -> bool
    requires { BoundedRecord words.now }
    ensures { result ≡ convex (corners words.now) }
{
    for k in 0..words[0] as usize {
        if !all_left(words, k) {
            return false;
        }
    }
    true
}
