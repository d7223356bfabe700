// Whether a place of a segment belongs to two blocks, sides and corners included: the closed half of the search of `geometry`.
#![tactic(auto)]

ghost use Rattle.std.specs.Prelude.{◌⊎◌, ◌<◌, pos, ◌<ℤ◌, ◌≤ℤ◌};
ghost use Rattle.lists.specs.inner.Tells.{Tells};
ghost use Rattle.geometry.specs.Words.{point_of, block_words};
ghost use Rattle.geometry.specs.inner.Bounds.{BoundedRecord, Bounded, InRange};
ghost use Rattle.geometry.specs.inner.Sides.{Within};
ghost use Rattle.seams.specs.Seam.{Shared};
ghost use Rattle.seams.specs.inner.Near.{Near};
ghost use Rattle.seams.specs.inner.Reach.{KeptSpan, TightenedSpan, Common, Reached, Meeting, Joined, SharedFrom};

use geometry::{Place, Span, side, steeper};

// Whether both turns are below 0.
fn behind(x: i64, y: i64) -> bool
    ensures { Tells ((x <ℤ pos 0) × (y <ℤ pos 0)) result }
{
    x < 0 && y < 0
}

// The two kept sides after the side whose turns are x and y: (l, r) of those that the first end is right of, (p, q) of those
// that the second end is right of.
fn tighten(s: Span, x: i64, y: i64) -> Span
    requires kept { KeptSpan s }
    requires side { (Within 2200000000 x) × (Within 2200000000 y) × ((pos 0 ≤ℤ x) ⊎ (pos 0 ≤ℤ y)) }
    ensures { TightenedSpan s x y result }
{
    if x < 0 {
        if steeper(x, y, s.l, s.r) {
            return Span { l: x, r: y, ..s };
        }
        return s;
    }
    if y < 0 {
        if steeper(y, x, s.q, s.p) {
            return Span { p: x, q: y, ..s };
        }
    }
    s
}

// Whether some point of the segment is right of neither kept side.
fn meets(s: Span) -> bool
    requires { KeptSpan s }
    ensures { Tells (Common s.l s.r s.p s.q) result }
{
    !(s.l < 0 && s.q < 0 && steeper(s.p, s.q, s.l, s.r))
}

// What the sides of a block record leave of the segment from a to b between the sides kept before, if anything.
fn reach(words: &[u16], start: Span, a: Place, b: Place) -> Option<Span>
    requires words { BoundedRecord words.now }
    requires kept { KeptSpan start }
    requires ends { (InRange (point_of a)) × (InRange (point_of b)) }
    ensures { Reached words.now (point_of a) (point_of b) start result }
{
    let count = words[0] as usize;
    if count == 0 {
        return None;
    }
    let mut kept = start;
    for k in 0..count {
        let x = side(words, k, a);
        let y = side(words, k, b);
        if behind(x, y) {
            return None;
        }
        kept = tighten(kept, x, y);
    }
    if meets(kept) { Some(kept) } else { None }
}

// The same of block n.
fn block_reach(blocks: &[u16], n: usize, start: Span, a: Place, b: Place) -> Option<Span>
    requires blocks { (Bounded blocks.now) × (n < 24) }
    requires kept { KeptSpan start }
    requires ends { (InRange (point_of a)) × (InRange (point_of b)) }
    ensures { Reached (block_words blocks.now n) (point_of a) (point_of b) start result }
{
    reach(&blocks[17 * n..17 * n + 17], start, a, b)
}

// What block n leaves of the whole segment.
pub fn first_reach(blocks: &[u16], n: usize, a: Place, b: Place) -> Option<Span>
    requires blocks { (Bounded blocks.now) × (n < 24) }
    requires ends { (InRange (point_of a)) × (InRange (point_of b)) }
    ensures { Reached (block_words blocks.now n) (point_of a) (point_of b) Span.WHOLE result }
{
    block_reach(blocks, n, Span::WHOLE, a, b)
}

// Whether what is kept of the segment meets block n.
pub fn meets_block(blocks: &[u16], n: usize, kept: Span, a: Place, b: Place) -> bool
    requires blocks { (Bounded blocks.now) × (n < 24) }
    requires kept { KeptSpan kept }
    requires ends { (InRange (point_of a)) × (InRange (point_of b)) }
    ensures { Tells (Meeting (block_words blocks.now n) (point_of a) (point_of b) kept.l kept.r kept.p kept.q) result }
{
    block_reach(blocks, n, kept, a, b).is_some()
}

// Whether what is kept of the segment meets a block of the numbers from..24.
fn joined(blocks: &[u16], from: usize, kept: Span, a: Place, b: Place) -> bool
    requires blocks { Bounded blocks.now }
    requires kept { KeptSpan kept }
    requires ends { (InRange (point_of a)) × (InRange (point_of b)) }
    ensures { Tells (Joined blocks.now from (point_of a) (point_of b) kept.l kept.r kept.p kept.q) result }
{
    for m in from..24 {
        if meets_block(blocks, m, kept, a, b) {
            return true;
        }
    }
    false
}

// Whether some place of the segment from a to b belongs both to block n and to a later one.
fn shared_from(blocks: &[u16], n: usize, a: Place, b: Place) -> bool
    requires blocks { (Bounded blocks.now) × (n < 24) }
    requires ends { (InRange (point_of a)) × (InRange (point_of b)) }
    ensures { Tells (SharedFrom blocks.now n (point_of a) (point_of b)) result }
{
    match first_reach(blocks, n, a, b) {
        Some(kept) => joined(blocks, n + 1, kept, a, b),
        None => false,
    }
}

// Whether some place of the segment from a to b belongs to two blocks. A block that is alone is passed over.
pub fn shared(blocks: &[u16], near: &[u8], a: Place, b: Place) -> bool
    requires blocks { (Bounded blocks.now) × (Near blocks.now near.now) }
    requires ends { (InRange (point_of a)) × (InRange (point_of b)) }
    ensures { Tells (Shared blocks.now (point_of a) (point_of b)) result }
{
    for (n, is_near) in near.iter().enumerate() {
        if *is_near != 0 && shared_from(blocks, n, a, b) {
            return true;
        }
    }
    false
}
