// A lazy search, for a router that has the records and no pair table: A* backwards from the second end, as `search` is, in which a
// straight is tested for hiding only where the best chain so far comes to one of its marks. Until then a mark is hoped for, with a
// key as if its straight to the second end were clear.
#![tactic(auto)]

ghost use Rattle.std.specs.Prelude.{◌≡◌, ◌+◌, ◌*◌, ◌-◌, ◌<◌, length};
ghost use Rattle.geometry.specs.Words.{point_of};
ghost use Rattle.seams.specs.inner.Near.{Near};
ghost use Rattle.tables.specs.Tables.{stored, place_of, first_end, second_end};
ghost use Rattle.tables.specs.inner.Fit.{Fit};
ghost use Rattle.search.specs.inner.Keys.{unreached, Filled, Listed, Searched};
ghost use Rattle.sight.specs.inner.Sight.{Sound};
ghost use Rattle.heaps.specs.inner.Marks.{Among};
ghost use Rattle.lazy_search.specs.inner.Lazy.{straights, network, Relaxable, Improved, Exact, Eased, Taken, Listing, Prepared, Testable, Easing};

use geometry::Place;
use tables::place_of;

// The first n marks of the list get the words of another table.
fn take_words(words: &[u32], order: &[u16], n: usize, key: &mut [u32])
    requires { (length words.now ≡ 240) × (Listed order.now n) × (length key.old ≡ 240) }
    ensures { Taken words.now order.now n key.old key.new }
{
    for j in 0..n {
        let v = usize::from(order[j]);
        key[v] = words[v];
    }
}

// Finds the bounds of the bends and the first end, hopes for each of them, and settles the second end.
fn prepare(
    blocks: &[u16],
    runs: &[u16],
    order: &[u16],
    n: usize,
    m: usize,
    bounds: &mut [u32],
    key: &mut [u32],
)
    requires fit { (Fit (stored blocks.now runs.now)) × (m < 24) × (Listing order.now n m) }
    requires bounds_len { (length bounds.old ≡ 240) × (Filled key.old 240 unreached) }
    ensures { Prepared (stored blocks.now runs.now) order.now n m bounds.new key.new }
{
    let mut backs = [0u32; 240];
    search::lower_bounds(blocks, runs, order, n + 1, 192 + 2 * m, bounds);
    search::lower_bounds(blocks, runs, order, n + 1, 193 + 2 * m, &mut backs);
    take_words(&backs, order, n + 1, key);
    key[193 + 2 * m] = 0;
}

// The key of mark v at a once mark s at b, with the key ks, is settled. The straight is tested only where it would improve the key.
fn improved(
    blocks: &[u16],
    runs: &[u16],
    near: &[u8],
    last: &mut [u8],
    v: usize,
    a: Place,
    s: usize,
    b: Place,
    ks: u32,
    old: u32,
) -> u32
    requires sound { (Sound (stored blocks.now runs.now)) × (Near blocks.now near.now) × (length last.old ≡ 240) × (point_of a ≡ place_of (stored blocks.now runs.now) v) }
    requires relaxable { Relaxable (stored blocks.now runs.now) v s (point_of b) ks old }
    ensures key { Improved (straights (stored blocks.now runs.now)) v s ks old result }
    ensures sized { length last.new ≡ 240 }
{
    if old < ks + 2 {
        return old;
    }
    let most = u64::from((old - ks - 2) / 256);
    let square = lengths::squared(a, b);
    let figure = tables::figure_of(runs);
    if lengths::dearer(figure, square, most) {
        return old;
    }
    if !sight::sees(blocks, runs, near, last, v, a, s, b) {
        return old;
    }
    256 * lengths::charge(figure, square) as u32 + 1 + ks
}

// The least key of mark v by a clear straight to a mark at the places from lo on and before hi, the last of them first.
fn tried_key(
    blocks: &[u16],
    runs: &[u16],
    near: &[u8],
    last: &mut [u8],
    order: &[u16],
    lo: usize,
    hi: usize,
    key: &[u32],
    v: usize,
) -> u32
    requires sound { (Sound (stored blocks.now runs.now)) × (Near blocks.now near.now) × (length last.old ≡ 240) }
    requires testable { Testable order.now lo hi key.now v }
    ensures key { Exact (straights (stored blocks.now runs.now)) (Among order.now lo hi) key.now v result }
    ensures sized { length last.new ≡ 240 }
{
    let a = place_of(blocks, runs, v);
    let mut best: u32 = 4000000000;
    for i in (lo..hi).rev() {
        let s = usize::from(order[i]);
        let b = place_of(blocks, runs, s);
        let ks = key[s];
        best = improved(blocks, runs, near, last, v, a, s, b, ks, best);
    }
    best
}

// Settles s: each mark at the places from lo on and before hi gets the key of the way by s where that is less.
fn ease(
    blocks: &[u16],
    runs: &[u16],
    near: &[u8],
    last: &mut [u8],
    order: &[u16],
    lo: usize,
    hi: usize,
    key: &mut [u32],
    s: usize,
    ks: u32,
)
    requires sound { (Sound (stored blocks.now runs.now)) × (Near blocks.now near.now) × (length last.old ≡ 240) }
    requires easing { Easing order.now lo hi key.old s ks }
    ensures keys { Eased (straights (stored blocks.now runs.now)) (Among order.now lo hi) key.old key.new s ks }
    ensures sized { length last.new ≡ 240 }
{
    let b = place_of(blocks, runs, s);
    for j in lo..hi {
        let v = usize::from(order[j]);
        let a = place_of(blocks, runs, v);
        let old = key[v];
        key[v] = improved(blocks, runs, near, last, v, a, s, b, ks, old);
    }
}

// Finds the keys for run m, of which none is reached at first; answers whether there is a way. The list has the n bending places and the
// two ends; it is kept in three parts: the marks hoped for, a heap, then those tried, then from `due` on those settled, the latest first.
pub fn settle(
    blocks: &[u16],
    runs: &[u16],
    near: &[u8],
    order: &mut [u16],
    n: usize,
    m: usize,
    key: &mut [u32],
) -> bool
    requires { (Sound (stored blocks.now runs.now)) × (Near blocks.now near.now) × (m < 24) × (Listing order.old n m) × (Filled key.old 240 unreached) }
    ensures { Searched (network (stored blocks.now runs.now) order.old n) (first_end m) (second_end m) key.new result }
{
    let first = 192 + 2 * m;
    let count = n + 2;
    let mut bounds = [0u32; 240];
    prepare(blocks, runs, order, n, m, &mut bounds, key);
    let mut last = [255u8; 240];
    let mut hoped = n + 1;
    let mut due = n + 1;
    heaps::heapify(&bounds, key, order, hoped);
    loop {
        let next = heaps::least(&bounds, key, order, hoped, due);
        if heaps::sooner(&bounds, key, order, 0, hoped, next, due) {
            hoped -= 1;
            let v = usize::from(order[0]);
            heaps::swap(order, 0, hoped);
            key[v] = tried_key(blocks, runs, near, &mut last, order, due, count, key, v);
            heaps::sift(&bounds, key, order, 0, hoped);
            continue;
        }
        if due <= next {
            return false;
        }
        let s = usize::from(order[next]);
        if s == first {
            return true;
        }
        due -= 1;
        heaps::swap(order, next, due);
        let ks = key[s];
        ease(blocks, runs, near, &mut last, order, hoped, due, key, s, ks);
    }
}
