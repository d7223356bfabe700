// The test of one straight between two marks, for a router that has the records and no pair table.
#![tactic(auto)]

ghost use Rattle.std.specs.Prelude.{◌≡◌, true, ◌+◌, ◌/◌, ◌%◌, ◌<◌, ◌≤◌, pos, ◌<ℤ◌, length};
ghost use Rattle.lists.specs.inner.Tells.{Tells};
ghost use Rattle.geometry.specs.Words.{point_of, word, block_words, corners};
ghost use Rattle.geometry.specs.Obstruction.{corner_at, side_turn, Obstructs, Hidden};
ghost use Rattle.geometry.specs.Convexity.{convex};
ghost use Rattle.geometry.specs.inner.Bounds.{BoundedRecord, Bounded, InRange};
ghost use Rattle.seams.specs.inner.Near.{Near};
ghost use Rattle.tables.specs.Tables.{stored, place_of};
ghost use Rattle.visibility.specs.Visibility.{ByPlaces};
ghost use Rattle.sight.specs.inner.Sight.{Sound};
ghost use Rattle.sight.specs.inner.Diagonals.{Apart, Crosses};

use geometry::Place;

// The number of the corner before corner k, of m.
fn before(k: usize, m: usize) -> usize
    requires { (k < m) × (m ≤ 8) }
    ensures { (result < m) × ((result + 1) % m ≡ k) }
{
    if 0 < k { k - 1 } else { m - 1 }
}

// Whether b lies strictly left of side k of a block record.
fn is_left(words: &[u16], k: usize, b: Place) -> bool
    requires { (BoundedRecord words.now) × (k < word words.now 0) × (InRange (point_of b)) }
    ensures { Tells (pos 0 <ℤ side_turn (corners words.now) (point_of b) k) result }
{
    0 < geometry::side(words, k, b)
}

// Whether the straight from corner k of a convex block to b goes into the block at once: b lies left of both sides at the corner.
fn enters_at(words: &[u16], k: usize, b: Place) -> bool
    requires { (BoundedRecord words.now) × (convex (corners words.now) ≡ true) × (k < word words.now 0) × (InRange (point_of b)) }
    ensures { result ≡ true → Obstructs (corners words.now) (corner_at (corners words.now) k) (point_of b) }
{
    is_left(words, k, b) && is_left(words, before(k, words[0] as usize), b)
}

// Whether the straight from the corner v to the place b goes into v's own block at once.
fn enters_own(blocks: &[u16], runs: &[u16], v: usize, b: Place) -> bool
    requires { (Sound (stored blocks.now runs.now)) × (v < 240) × (InRange (point_of b)) }
    ensures { result ≡ true → (v < 192) × (Hidden blocks.now (v / 8) (place_of (stored blocks.now runs.now) v) (point_of b)) }
{
    if 192 <= v {
        return false;
    }
    let n = v / 8;
    let words = &blocks[17 * n..17 * n + 17];
    let k = v % 8;
    k < words[0] as usize && enters_at(words, k, b)
}

// Whether x lies strictly right of the line from p to q and y strictly left.
fn apart(p: Place, q: Place, x: Place, y: Place) -> bool
    ensures { result ≡ true → Apart (point_of p) (point_of q) (point_of x) (point_of y) }
{
    geometry::turn(p, q, x) < 0 && 0 < geometry::turn(p, q, y)
}

// Whether the segment from a to b crosses the one from c, on its right, to d, on its left.
fn crosses(c: Place, d: Place, a: Place, b: Place) -> bool
    ensures { result ≡ true → Crosses (point_of c) (point_of d) (point_of a) (point_of b) }
{
    apart(a, b, c, d) && apart(c, d, b, a)
}

// Whether the segment from a to b crosses the diagonal between corners i and j of a convex block.
fn crosses_diagonal(words: &[u16], i: usize, j: usize, a: Place, b: Place) -> bool
    requires { (BoundedRecord words.now) × (convex (corners words.now) ≡ true) × (j < word words.now 0) × (i + 2 ≤ j) × (j + 2 ≤ i + word words.now 0) }
    ensures { result ≡ true → Obstructs (corners words.now) (point_of a) (point_of b) }
{
    let c = geometry::corner(words, i);
    let d = geometry::corner(words, j);
    crosses(c, d, a, b) || crosses(d, c, a, b)
}

// Whether the segment from a to b crosses a diagonal that goes half way round a convex block, as most do that the block hides.
fn crosses_middle(words: &[u16], a: Place, b: Place) -> bool
    requires { (BoundedRecord words.now) × (convex (corners words.now) ≡ true) }
    ensures { result ≡ true → (0 < word words.now 0) × (Obstructs (corners words.now) (point_of a) (point_of b)) }
{
    let m = words[0] as usize;
    if m < 4 {
        return false;
    }
    let h = m / 2;
    for i in 0..h {
        if crosses_diagonal(words, i, i + h, a, b) {
            return true;
        }
    }
    false
}

// Whether n is a block's number and that block hides the straight from a to b.
fn hidden_by(blocks: &[u16], n: usize, a: Place, b: Place) -> bool
    requires { (Bounded blocks.now) × (n < 24 → convex (corners (block_words blocks.now n)) ≡ true) × (InRange (point_of a)) × (InRange (point_of b)) }
    ensures { Tells ((n < 24) × (Hidden blocks.now n (point_of a) (point_of b))) result }
{
    if 24 <= n {
        return false;
    }
    crosses_middle(&blocks[17 * n..17 * n + 17], a, b)
        || geometry::lowest_hider(blocks, n, n + 1, a, b).is_some()
}

// Whether the straight between mark v at a and mark u at b is clear, where the block that last hid a straight of v is asked first.
fn unhidden(
    blocks: &[u16],
    runs: &[u16],
    near: &[u8],
    last: &mut [u8],
    v: usize,
    a: Place,
    u: usize,
    b: Place,
) -> bool
    requires records { (Sound (stored blocks.now runs.now)) × (Near blocks.now near.now) }
    requires marks { (v < 240) × (u < 240) × (length last.old ≡ 240) }
    requires places { (point_of a ≡ place_of (stored blocks.now runs.now) v) × (point_of b ≡ place_of (stored blocks.now runs.now) u) }
    ensures tells { Tells (ByPlaces (stored blocks.now runs.now) v u) result }
    ensures sized { length last.new ≡ 240 }
{
    if hidden_by(blocks, last[v] as usize, a, b) {
        return false;
    }
    let byte = visibility::fresh_byte(blocks, runs, near, v, u);
    if byte == 254 {
        return true;
    }
    last[v] = byte;
    false
}

// Whether the straight between mark v at a and mark u at b is clear: the one place where a router over records tests a straight.
// Most hidden ones go into the block of one of their own corners, so that these are asked first.
pub fn sees(
    blocks: &[u16],
    runs: &[u16],
    near: &[u8],
    last: &mut [u8],
    v: usize,
    a: Place,
    u: usize,
    b: Place,
) -> bool
    requires records { (Sound (stored blocks.now runs.now)) × (Near blocks.now near.now) }
    requires marks { (v < 240) × (u < 240) × (length last.old ≡ 240) }
    requires places { (point_of a ≡ place_of (stored blocks.now runs.now) v) × (point_of b ≡ place_of (stored blocks.now runs.now) u) }
    ensures tells { Tells (ByPlaces (stored blocks.now runs.now) v u) result }
    ensures sized { length last.new ≡ 240 }
{
    if enters_own(blocks, runs, v, b) || enters_own(blocks, runs, u, a) {
        return false;
    }
    unhidden(blocks, runs, near, last, v, a, u, b)
}
