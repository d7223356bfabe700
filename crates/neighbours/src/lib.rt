// Which blocks can share a place with another: compared by their enclosing rectangles, once for all straights of a call.
#![tactic(auto)]

ghost use Rattle.std.specs.Prelude.{◌≡◌, ◌⊎◌, true, ◌<◌, ◌≤◌, length};
ghost use Rattle.geometry.specs.Words.{corners};
ghost use Rattle.geometry.specs.inner.Bounds.{BoundedRecord, Bounded};
ghost use Rattle.seams.specs.inner.Near.{Alone, Near};
ghost use Rattle.neighbours.specs.inner.Rectangles.{Solid, Further, Ends, Beyond, Apart, Parted, Bound, Bounds};

// An end of a block along a coordinate.
#[derive(Clone, Copy, Debug, PartialEq, Eq)]
pub enum End {
    Least,
    Greatest,
}

// Whether the first three corners of a block record turn left, as they do in every block that question 2 allows.
fn is_solid(words: &[u16]) -> bool
    requires { BoundedRecord words.now }
    ensures { result ≡ true → Solid (corners words.now) }
{
    3 <= words[0] && 0 < geometry::side(words, 0, geometry::corner(words, 2))
}

// Of two coordinates, the one further towards an end.
fn further(end: End, v: u16, w: u16) -> u16
    ensures { Further end v w result }
{
    match end {
        End::Least => v.min(w),
        End::Greatest => v.max(w),
    }
}

// The end of a block record along a coordinate, east where i is 1, north where it is 2; `start` is at the other end of all.
fn reach(words: &[u16], i: usize, end: End, start: u16) -> u16
    requires { (BoundedRecord words.now) × (i ≤ 2) }
    ensures { Ends words.now i end result }
{
    let mut far = start;
    for k in 0..words[0] as usize {
        far = further(end, far, words[2 * k + i]);
    }
    far
}

// Whether every corner of q lies beyond every corner of p along a coordinate.
fn is_beyond(p: &[u16], q: &[u16], i: usize) -> bool
    requires { (BoundedRecord p.now) × (BoundedRecord q.now) × (i ≤ 2) }
    ensures { result ≡ true → Beyond p.now q.now i }
{
    reach(p, i, End::Greatest, 0) < reach(q, i, End::Least, 65535)
}

// Whether two block records lie apart along a coordinate.
fn is_divided(p: &[u16], q: &[u16], i: usize) -> bool
    requires { (BoundedRecord p.now) × (BoundedRecord q.now) × (i ≤ 2) }
    ensures { result ≡ true → Beyond p.now q.now i ⊎ Beyond q.now p.now i }
{
    is_beyond(p, q, i) || is_beyond(q, p, i)
}

// Whether no place belongs to both of two block records: one is absent, or their enclosing rectangles do not touch.
fn is_apart(p: &[u16], q: &[u16]) -> bool
    requires { (BoundedRecord p.now) × (BoundedRecord q.now) }
    ensures { result ≡ true → Apart p.now q.now }
{
    if p[0] == 0 || q[0] == 0 {
        return true;
    }
    is_solid(p) && is_solid(q) && (is_divided(p, q, 1) || is_divided(p, q, 2))
}

// Whether blocks p and q are one block or share no place.
fn is_parted(blocks: &[u16], p: usize, q: usize) -> bool
    requires { (Bounded blocks.now) × (p < 24) × (q < 24) }
    ensures { result ≡ true → Parted blocks.now p q }
{
    p == q || is_apart(&blocks[17 * p..17 * p + 17], &blocks[17 * q..17 * q + 17])
}

// Whether block p shares no place with another.
fn is_alone(blocks: &[u16], p: usize) -> bool
    requires { (Bounded blocks.now) × (p < 24) }
    ensures { result ≡ true → Alone blocks.now p }
{
    for q in 0..24 {
        if !is_parted(blocks, p, q) {
            return false;
        }
    }
    true
}

// The word of block p in the list of those that are near another.
fn mark(blocks: &[u16], p: usize) -> u8
    requires { (Bounded blocks.now) × (p < 24) }
    ensures { result ≡ 0 → Alone blocks.now p }
{
    u8::from(!is_alone(blocks, p))
}

// For each block, 0 where it shares no place with another.
pub fn mark_near(blocks: &[u16], near: &mut [u8])
    requires { (Bounded blocks.now) × (length near.old ≡ 24) }
    ensures { Near blocks.now near.new }
{
    for (p, is_near) in near.iter_mut().enumerate() {
        *is_near = mark(blocks, p);
    }
}

// An end of a block record that is present and solid. An absent one lies past everything, and one that is not solid has no
// bound.
fn bound(words: &[u16], i: usize, end: End) -> u16
    requires { (BoundedRecord words.now) × (i ≤ 2) }
    ensures { Bound words.now i end result }
{
    let (absent, unbounded) = match end {
        End::Least => (65535, 0),
        End::Greatest => (0, 65535),
    };
    if words[0] == 0 {
        return absent;
    }
    if !is_solid(words) {
        return unbounded;
    }
    reach(words, i, end, absent)
}

// That end of each block.
pub fn mark_bounds(blocks: &[u16], i: usize, end: End, bounds: &mut [u16])
    requires { (Bounded blocks.now) × (i ≤ 2) × (length bounds.old ≡ 24) }
    ensures { Bounds blocks.now i end bounds.new }
{
    for (p, at) in bounds.iter_mut().enumerate() {
        *at = bound(&blocks[17 * p..17 * p + 17], i, end);
    }
}
