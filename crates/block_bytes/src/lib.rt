// The byte of two marks after an edit of a block, by the codes of both.
#![tactic(auto)]

ghost use Rattle.std.specs.Prelude.{◌≡◌, ◌<◌, None};
ghost use Rattle.lists.specs.inner.Tells.{Tells};
ghost use Rattle.geometry.specs.Words.{point_of};
ghost use Rattle.tables.specs.Tables.{place_of};
ghost use Rattle.codes.specs.inner.Codes.{Looked};
ghost use Rattle.visibility.specs.Visibility.{PairIs, Afresh, BlockPair};
ghost use Rattle.visibility.specs.inner.Bytes.{StraightIs};
ghost use Rattle.block_bytes.specs.inner.Aids.{TouchedWord, records_of, AidsRight, KnownMark};

use codes::{hides, is_beside, look};
use geometry::Place;
use seam_search::shared_among;
use tables::{is_present, place_of};

// What an edit of a block makes once for all pairs, beside the records: the codes of all marks, which blocks may share a place, which have
// a side in line with a mark or a mark on a side, and whether no two blocks share a place.
#[derive(Clone, Copy)]
pub struct Aids<'a> {
    pub blocks: &'a [u16],
    pub runs: &'a [u16],
    pub codes: &'a [u8],
    pub masks: &'a [u64],
    pub lines: &'a [u64],
    pub alone: bool,
}

// The blocks that a straight may touch: those that a look finds, those with sides in line with both ends, and those that an end belongs to.
fn touched(opened: u64, first: u64, last: u64) -> u64
    ensures { TouchedWord opened first last result }
{
    (opened | (first & last) | ((first | last) >> 24)) & 16777215
}

// Whether the pair is worked out afresh after an edit of block n: it is on the block's marks, or its byte was n, 253 or 254.
fn asks_fresh(n: usize, i: usize, j: usize, old: u8) -> bool
    ensures { Tells (Afresh n i j old) result }
{
    i / 8 == n || j / 8 == n || usize::from(old) == n || old == 253 || old == 254
}

impl Aids<'_> {
    // The place of mark i, if it is present.
    pub fn mark(&self, i: usize) -> Option<Place>
        requires { (AidsRight self.now) × (i < 240) }
        ensures { KnownMark (records_of self.now) i result }
    {
        if is_present(self.blocks, self.runs, i) {
            Some(place_of(self.blocks, self.runs, i))
        } else {
            None
        }
    }

    // The byte of the straight between present marks i and j, at a and b, that no block hides.
    fn unhidden_byte(&self, i: usize, j: usize, opened: u64, a: Place, b: Place) -> u8
        requires aids { AidsRight self.now }
        requires marks { (i < 240) × (j < 240) × (Looked self.now.blocks.now self.now.codes.now i j (point_of a) (point_of b) None opened) }
        requires ends { (point_of a ≡ place_of (records_of self.now) i) × (point_of b ≡ place_of (records_of self.now) j) }
        ensures { StraightIs self.now.blocks.now (point_of a) (point_of b) result }
    {
        let t = touched(opened, self.lines[i], self.lines[j]);
        if shared_among(self.blocks, self.masks, t, a, b) {
            253
        } else {
            254
        }
    }

    // The byte of the straight between present marks i and j, at a and b.
    fn straight_byte(&self, i: usize, j: usize, a: Place, b: Place) -> u8
        requires aids { (AidsRight self.now) × (i < 240) × (j < 240) }
        requires ends { (point_of a ≡ place_of (records_of self.now) i) × (point_of b ≡ place_of (records_of self.now) j) }
        ensures { StraightIs self.now.blocks.now (point_of a) (point_of b) result }
    {
        let s = look(self.blocks, self.runs, self.codes, i, j, a, b);
        if let Some(n) = s.hider {
            return n as u8;
        }
        if self.alone {
            return 254;
        }
        self.unhidden_byte(i, j, s.opened, a, b)
    }

    // The byte that the stored records require for mark i and mark j, whose place is b if it is present.
    fn byte_with(&self, i: usize, j: usize, b: Option<Place>) -> u8
        requires { (AidsRight self.now) × (i < 240) × (j < 240) × (KnownMark (records_of self.now) j b) }
        ensures { PairIs (records_of self.now) i j result }
    {
        let Some(b) = b else {
            return 255;
        };
        let Some(a) = self.mark(i) else {
            return 255;
        };
        self.straight_byte(i, j, a, b)
    }

    // The byte of marks i and j after an edit of block n; b is the place of mark j, if it is present.
    pub fn block_byte(&self, n: usize, i: usize, j: usize, b: Option<Place>, old: u8) -> u8
        requires { (AidsRight self.now) × (n < 24) × (i < 240) × (j < 240) × (KnownMark (records_of self.now) j b) }
        ensures { BlockPair (records_of self.now) n i j old result }
    {
        if asks_fresh(n, i, j, old) {
            return self.byte_with(i, j, b);
        }
        if usize::from(old) < n || is_beside(self.codes, n, i, j) {
            return old;
        }
        let Some(b) = b else {
            return old;
        };
        let Some(a) = self.mark(i) else {
            return old;
        };
        if hides(self.blocks, self.runs, self.codes, n, i, j, a, b) {
            n as u8
        } else {
            old
        }
    }
}
