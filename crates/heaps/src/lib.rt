// The marks of a search in one list: the least by the sum of key and bound, and a heap of them.
#![tactic(auto)]

ghost use Rattle.std.specs.Prelude.{◌≡◌, ◌+◌, ◌*◌, ◌-◌, ◌%◌, ◌<◌, ◌≤◌, length};
ghost use Rattle.heaps.specs.inner.Marks.{Swapped};
ghost use Rattle.geometry.specs.Words.{word};
ghost use Rattle.heaps.specs.inner.Sums.{Comparable, LeastFour, LowTo, LeastIn, Least, Sooner};
ghost use Rattle.heaps.specs.inner.Heaps.{Heap, Rearranged, LesserChild, Heapable};

// Exchanges the marks at the places i and j.
pub fn swap(order: &mut [u16], i: usize, j: usize)
    requires { (i < length order.old) × (j < length order.old) }
    ensures { Swapped order.old order.new i j }
{
    let mark = order[i];
    order[i] = order[j];
    order[j] = mark;
}

// The place of the least sum of key and bound from lo on and before hi, or hi where no mark there is reached.
pub fn least(bounds: &[u32], key: &[u32], order: &[u16], lo: usize, hi: usize) -> usize
    requires { Comparable bounds.now key.now order.now lo hi }
    ensures { Least bounds.now key.now order.now lo hi result }
{
    let mut best = hi;
    let mut low: u32 = 4000000000;
    for j in lo..hi {
        let v = order[j] as usize;
        let whole = key[v] + bounds[v];
        if whole < low {
            low = whole;
            best = j;
        }
    }
    best
}

// The least sum so far, or 4000000000 where none is below that, and a place that it does not stand before.
#[derive(Clone, Copy)]
struct Low {
    sum: u32,
    from: usize,
}

// The least of the four sums from j on.
fn least_four(sums: &[u32], j: usize) -> u32
    requires { j + 4 ≤ length sums.now }
    ensures { LeastFour (word sums.now) j result }
{
    let first = sums[j].min(sums[j + 1]);
    let second = sums[j + 2].min(sums[j + 3]);
    first.min(second)
}

// The least of the sums from lo on and before stop, four at a time.
fn lowest_by_fours(sums: &[u32], lo: usize, stop: usize, hi: usize) -> Low
    requires { (hi ≤ length sums.now) × (lo ≤ stop) × (stop ≤ hi) × ((stop - lo) % 4 ≡ 0) }
    ensures { LowTo (word sums.now) lo hi result.sum result.from stop }
{
    let mut sum: u32 = 4000000000;
    let mut from = lo;
    for j in (lo..stop).step_by(4) {
        let four = least_four(sums, j);
        if four < sum {
            sum = four;
            from = j;
        }
    }
    Low { sum, from }
}

// The same with those before hi.
fn lowest(sums: &[u32], lo: usize, stop: usize, hi: usize) -> Low
    requires { (hi ≤ length sums.now) × (lo ≤ stop) × (stop ≤ hi) × ((stop - lo) % 4 ≡ 0) }
    ensures { LowTo (word sums.now) lo hi result.sum result.from hi }
{
    let low = lowest_by_fours(sums, lo, stop, hi);
    let mut sum = low.sum;
    let mut from = low.from;
    for j in stop..hi {
        let one = sums[j];
        if one < sum {
            sum = one;
            from = j;
        }
    }
    Low { sum, from }
}

// The place of the least of the sums from lo on and before hi, if a mark there is reached.
pub fn least_sum(sums: &[u32], lo: usize, hi: usize) -> Option<usize>
    requires { (hi ≤ length sums.now) × (lo ≤ hi) }
    ensures { LeastIn (word sums.now) lo hi result }
{
    let stop = lo + (hi - lo) / 4 * 4;
    let low = lowest(sums, lo, stop, hi);
    if low.sum == 4000000000 {
        return None;
    }
    for j in low.from..hi {
        if sums[j] == low.sum {
            return Some(j);
        }
    }
    None
}

// The child of the place i in a heap of n marks that has the lesser sum of key and bound; there is one.
fn lesser_child(bounds: &[u32], key: &[u32], order: &[u16], i: usize, n: usize) -> usize
    requires { (Heapable bounds.now key.now order.now n) × (2 * i + 1 < n) }
    ensures { LesserChild bounds.now key.now order.now i n result }
{
    let c = 2 * i + 1;
    if n <= c + 1 {
        return c;
    }
    let u = order[c] as usize;
    let v = order[c + 1] as usize;
    if key[v] + bounds[v] < key[u] + bounds[u] {
        return c + 1;
    }
    c
}

// Moves the mark at place i down until no child of its place has a lesser sum.
pub fn sift(bounds: &[u32], key: &[u32], order: &mut [u16], i: usize, n: usize)
    requires { (Heapable bounds.now key.now order.old n) × (i ≤ n) × (Heap bounds.now key.now order.old (i + 1) n) }
    ensures heap { Heap bounds.now key.now order.new i n }
    ensures marks { Rearranged order.old order.new n }
{
    let mut at = i;
    while 2 * at + 1 < n {
        let to = lesser_child(bounds, key, order, at, n);
        let u = order[at] as usize;
        let v = order[to] as usize;
        if key[u] + bounds[u] <= key[v] + bounds[v] {
            return;
        }
        swap(order, at, to);
        at = to;
    }
}

// Makes the first n of the list a heap.
pub fn heapify(bounds: &[u32], key: &[u32], order: &mut [u16], n: usize)
    requires { Heapable bounds.now key.now order.old n }
    ensures heap { Heap bounds.now key.now order.new 0 n }
    ensures marks { Rearranged order.old order.new n }
{
    for i in (0..n / 2).rev() {
        sift(bounds, key, order, i, n);
    }
}

// Whether the mark at place i, hoped for if i is below hoped, comes before the one at place j, tried if j is below waiting.
pub fn sooner(
    bounds: &[u32],
    key: &[u32],
    order: &[u16],
    i: usize,
    hoped: usize,
    j: usize,
    waiting: usize,
) -> bool
    requires { (Comparable bounds.now key.now order.now 0 hoped) × (Comparable bounds.now key.now order.now hoped waiting) × (hoped ≤ j) }
    ensures { Sooner bounds.now key.now order.now i hoped j waiting result }
{
    if hoped <= i {
        return false;
    }
    if waiting <= j {
        return true;
    }
    let u = order[i] as usize;
    let v = order[j] as usize;
    key[u] + bounds[u] < key[v] + bounds[v]
}
