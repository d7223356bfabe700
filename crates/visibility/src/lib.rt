// The byte of two marks, as the stored records require it.
#![tactic(auto)]

ghost use Rattle.std.specs.Prelude.{◌<◌};
ghost use Rattle.geometry.specs.Words.{point_of};
ghost use Rattle.geometry.specs.inner.Bounds.{Bounded, InRange};
ghost use Rattle.seams.specs.inner.Near.{Near};
ghost use Rattle.tables.specs.Tables.{stored};
ghost use Rattle.tables.specs.inner.Fit.{Fit};
ghost use Rattle.lists.specs.inner.Tells.{Tells};
ghost use Rattle.visibility.specs.Visibility.{Unhidden, Clear, PairIs};
ghost use Rattle.visibility.specs.inner.Bytes.{StraightIs};

use geometry::{Place, lowest_hider};
use tables::{is_present, place_of};

// The byte of a straight that no block hides.
pub fn unhidden_byte(blocks: &[u16], near: &[u8], a: Place, b: Place) -> u8
    requires blocks { (Bounded blocks.now) × (Near blocks.now near.now) }
    requires ends { (InRange (point_of a)) × (InRange (point_of b)) × (Unhidden blocks.now (point_of a) (point_of b)) }
    ensures { StraightIs blocks.now (point_of a) (point_of b) result }
{
    if seams::shared(blocks, near, a, b) {
        253
    } else {
        254
    }
}

// The byte of a straight between present marks at a and b.
fn straight_byte(blocks: &[u16], near: &[u8], a: Place, b: Place) -> u8
    requires blocks { (Bounded blocks.now) × (Near blocks.now near.now) }
    requires ends { (InRange (point_of a)) × (InRange (point_of b)) }
    ensures { StraightIs blocks.now (point_of a) (point_of b) result }
{
    match lowest_hider(blocks, 0, 24, a, b) {
        Some(n) => n as u8,
        None => unhidden_byte(blocks, near, a, b),
    }
}

// Whether the straight from a to b is clear: for callers that have the records and no pair table.
pub fn is_clear(blocks: &[u16], near: &[u8], a: Place, b: Place) -> bool
    requires blocks { (Bounded blocks.now) × (Near blocks.now near.now) }
    requires ends { (InRange (point_of a)) × (InRange (point_of b)) }
    ensures { Tells (Clear blocks.now (point_of a) (point_of b)) result }
{
    straight_byte(blocks, near, a, b) == 254
}

// The same of one place, for a caller that has not compared the blocks.
pub fn is_clear_place(blocks: &[u16], p: Place) -> bool
    requires { (Bounded blocks.now) × (InRange (point_of p)) }
    ensures { Tells (Clear blocks.now (point_of p) (point_of p)) result }
{
    let every = [1u8; 24];
    is_clear(blocks, &every, p, p)
}

// The byte that the stored records require for marks i and j.
pub fn fresh_byte(blocks: &[u16], runs: &[u16], near: &[u8], i: usize, j: usize) -> u8
    requires { (Fit (stored blocks.now runs.now)) × (Near blocks.now near.now) × (i < 240) × (j < 240) }
    ensures { PairIs (stored blocks.now runs.now) i j result }
{
    if !is_present(blocks, runs, j) || !is_present(blocks, runs, i) {
        return 255;
    }
    let a = place_of(blocks, runs, i);
    let b = place_of(blocks, runs, j);
    straight_byte(blocks, near, a, b)
}
