// Whether a place of a segment belongs to two blocks, searched only among blocks that it may touch and that may share one.
#![tactic(auto)]

ghost use Rattle.std.specs.Prelude.{◌≡◌, true, false, ◌<◌, length};
ghost use Rattle.lists.specs.inner.Tells.{Tells};
ghost use Rattle.geometry.specs.Words.{point_of};
ghost use Rattle.geometry.specs.inner.Bounds.{Bounded, InRange};
ghost use Rattle.seams.specs.Seam.{Shared, Disjoint};
ghost use Rattle.seams.specs.inner.Reach.{KeptSpan};
ghost use Rattle.neighbours.specs.inner.Rectangles.{Parted};
ghost use Rattle.seam_search.specs.inner.Masks.{Boxed, Divided, Mask, Masks, TouchedIn, Numbers, Later, JoinedAmong, SharedAfter};

use geometry::{Place, Span};
use neighbours::End;

// The enclosing rectangles of all blocks.
#[derive(Drop)]
struct Boxes {
    west: [u16; 24],
    east: [u16; 24],
    south: [u16; 24],
    north: [u16; 24],
}

// Whether blocks p and q lie apart along a coordinate: the greatest of one is below the least of the other.
fn is_divided(lows: &[u16], highs: &[u16], p: usize, q: usize) -> bool
    requires { (length lows.now ≡ 24) × (length highs.now ≡ 24) × (p < 24) × (q < 24) }
    ensures { result ≡ true → Divided lows.now highs.now p q }
{
    highs[p] < lows[q] || highs[q] < lows[p]
}

impl Boxes {
    // Those of the block table.
    fn of(blocks: &[u16]) -> Boxes
        requires { Bounded blocks.now }
        ensures { Boxed blocks.now result }
    {
        let mut west = [0; 24];
        let mut east = [0; 24];
        let mut south = [0; 24];
        let mut north = [0; 24];
        neighbours::mark_bounds(blocks, 1, End::Least, &mut west);
        neighbours::mark_bounds(blocks, 1, End::Greatest, &mut east);
        neighbours::mark_bounds(blocks, 2, End::Least, &mut south);
        neighbours::mark_bounds(blocks, 2, End::Greatest, &mut north);
        Boxes {
            west,
            east,
            south,
            north,
        }
    }

    // Whether blocks p and q are two and their enclosing rectangles touch.
    fn is_near(&self, blocks: &[u16], p: usize, q: usize) -> bool
        requires { (Boxed blocks.now self.now) × (p < 24) × (q < 24) }
        ensures { result ≡ false → Parted blocks.now p q }
    {
        !(p == q
            || is_divided(&self.west, &self.east, p, q)
            || is_divided(&self.south, &self.north, p, q))
    }

    // The blocks that may share a place with block p.
    fn mask(&self, blocks: &[u16], p: usize) -> u64
        requires { (Boxed blocks.now self.now) × (p < 24) }
        ensures { Mask blocks.now p result }
    {
        let mut w = 0;
        for q in (0..24).rev() {
            w = bits::below(w, u64::from(self.is_near(blocks, p, q)));
        }
        w
    }
}

// For each block the others that may share a place with it.
pub fn mark_masks(blocks: &[u16], masks: &mut [u64])
    requires { (Bounded blocks.now) × (length masks.old ≡ 24) }
    ensures { Masks blocks.now masks.new }
{
    let boxes = Boxes::of(blocks);
    for (p, mask) in masks.iter_mut().enumerate() {
        *mask = boxes.mask(blocks, p);
    }
}

// Whether no two blocks may share a place.
pub fn all_apart(blocks: &[u16], masks: &[u64]) -> bool
    requires { Masks blocks.now masks.now }
    ensures { result ≡ true → Disjoint blocks.now }
{
    masks.iter().all(|mask| *mask == 0)
}

// Whether what is kept of the segment from a to b meets a block of the word.
fn joined_among(blocks: &[u16], word: u64, kept: Span, a: Place, b: Place) -> bool
    requires blocks { (Bounded blocks.now) × (Numbers word) }
    requires kept { KeptSpan kept }
    requires ends { (InRange (point_of a)) × (InRange (point_of b)) }
    ensures { Tells (JoinedAmong blocks.now word (point_of a) (point_of b) kept.l kept.r kept.p kept.q) result }
{
    let mut rest = word;
    while 0 < rest {
        let q = bits::lowest(rest) as usize;
        if seams::meets_block(blocks, q, kept, a, b) {
            return true;
        }
        rest = bits::without_lowest(rest);
    }
    false
}

// Whether some place of the segment from a to b belongs both to block p and to a later one that is in both words.
fn shared_after(blocks: &[u16], mask: u64, touched: u64, p: usize, a: Place, b: Place) -> bool
    requires blocks { (Bounded blocks.now) × (p < 24) }
    requires touched { Later p touched }
    requires ends { (InRange (point_of a)) × (InRange (point_of b)) }
    ensures { Tells (SharedAfter blocks.now mask touched p (point_of a) (point_of b)) result }
{
    let w = bits::both(mask, touched);
    if w == 0 {
        return false;
    }
    match seams::first_reach(blocks, p, a, b) {
        Some(kept) => joined_among(blocks, w, kept, a, b),
        None => false,
    }
}

// Whether some place of the segment from a to b belongs to two blocks. It touches none that is not in `touched` and may share one.
pub fn shared_among(blocks: &[u16], masks: &[u64], touched: u64, a: Place, b: Place) -> bool
    requires blocks { (Bounded blocks.now) × (Masks blocks.now masks.now) }
    requires touched { (touched < 16777216) × (TouchedIn blocks.now masks.now (point_of a) (point_of b) touched) }
    requires ends { (InRange (point_of a)) × (InRange (point_of b)) }
    ensures { Tells (Shared blocks.now (point_of a) (point_of b)) result }
{
    let mut rest = touched;
    while 0 < rest {
        let p = bits::lowest(rest) as usize;
        rest = bits::without_lowest(rest);
        if shared_after(blocks, masks[p], rest, p, a, b) {
            return true;
        }
    }
    false
}
