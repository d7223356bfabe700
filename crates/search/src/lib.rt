// The steps of one run's search, A* backwards from the second end with a lower bound from the first: the marks in one list,
// and the relaxing of those that have a clear straight to a settled one. A key is 256 × cost + straights.
#![tactic(auto)]

ghost use Rattle.std.specs.Prelude.{◌≡◌, List, ℕ, ◌+◌, ◌*◌, ◌<◌, ◌≤◌, min, length};
ghost use Rattle.geometry.specs.Words.{point_of, word, place_at};
ghost use Rattle.tables.specs.Tables.{stored};
ghost use Rattle.adjacency.specs.inner.Adjacent.{Rows};
ghost use Rattle.search.specs.Network.{ByBytes};
ghost use Rattle.search.specs.inner.LowerBound.{projection, at_least, lower_bound};
ghost use Rattle.search.specs.inner.Keys.{Listed, Looked};
ghost use Rattle.search.specs.inner.Parts.{Places, Here, Corners, Ranked, Bends, Parted, Exchanged, Passed, way_by, via, ahead, Marked, Row, near_word, near_base, Seen, NearWord};

use geometry::Place;

// A settled mark, how many marks are left waiting, the figure, and the place of the first end.
#[derive(Clone, Copy)]
pub struct Settled {
    pub mark: usize,
    pub place: Place,
    pub key: u32,
    pub left: usize,
    pub figure: u64,
    pub goal: Place,
}

// The places of all marks, two words each.
pub fn list_places(blocks: &[u16], runs: &[u16], places: &mut [u16])
    requires { (length blocks.now ≡ 408) × (length runs.now ≡ 121) × (length places.old ≡ 480) }
    ensures { Places (stored blocks.now runs.now) places.new 240 }
{
    for i in 0..240 {
        let p = tables::place_of(blocks, runs, i);
        places[2 * i] = p.east;
        places[2 * i + 1] = p.north;
    }
}

// The place of mark v among them.
pub fn listed_place(places: &[u16], v: usize) -> Place
    requires { (length places.now ≡ 480) × (v < 240) }
    ensures { point_of result ≡ place_at places.now (2 * v) }
{
    Place {
        east: places[2 * v],
        north: places[2 * v + 1],
    }
}

// The marks of a search in one list, where each of them stands, and the sums of key and bound of those that are reached.
#[derive(Drop)]
pub struct Waiting {
    pub order: [u16; 194],
    pub spot: [u8; 240],
    pub sums: [u32; 194],
}

// Lists the corners of the present blocks, and answers how many there are.
fn open_corners(blocks: &[u16], list: &mut Waiting) -> usize
    requires { (length blocks.now ≡ 408) }
    ensures corners { Corners blocks.now list.new.order list.new.spot 192 result }
    ensures sums { length list.new.sums ≡ 194 }
    ensures kept { list.new.sums ≡ list.old.sums }
{
    let mut n = 0;
    for i in 0..192 {
        if tables::is_corner(blocks, i) {
            list.order[n] = i as u16;
            list.spot[i] = n as u8;
            n += 1;
        }
    }
    n
}

// Lists them and the first end behind them.
pub fn list_bends(blocks: &[u16], first: usize, list: &mut Waiting) -> usize
    requires { (length blocks.now ≡ 408) × (192 ≤ first) × (first < 240) }
    ensures ranked { Ranked blocks.now first list.new.order list.new.spot result }
    ensures sums { length list.new.sums ≡ 194 }
    ensures kept { list.new.sums ≡ list.old.sums }
{
    let corners = open_corners(blocks, list);
    list.order[corners] = first as u16;
    list.spot[first] = corners as u8;
    corners + 1
}

// 256 × the longest projection of a straight on five directions, or a little less, by its larger and its smaller difference.
fn projection(hi: u32, lo: u32) -> u32
    requires { (hi ≤ 65535) × (lo ≤ 65535) }
    ensures { result ≡ projection hi lo }
{
    let flat = (256 * hi).max(250 * hi + 55 * lo).max(236 * hi + 99 * lo);
    let steep = (213 * hi + 142 * lo).max(181 * hi + 181 * lo);
    flat.max(steep)
}

// 256 × a whole number that the straight from a to b is at least as long as.
fn at_least(a: Place, b: Place) -> u32
    ensures value { result ≡ 256 * at_least (point_of a) (point_of b) }
    ensures small { result ≤ 23723670 }
{
    let x = lengths::apart(a.east, b.east) as u32;
    let y = lengths::apart(a.north, b.north) as u32;
    let hi = x.max(y);
    let lo = x + y - hi;
    256 * (projection(hi, lo) / 256)
}

// 256 × how far each of the first n waiting marks is from the first end at least.
pub fn lower_bounds(
    blocks: &[u16],
    runs: &[u16],
    waiting: &[u16],
    n: usize,
    first: usize,
    bounds: &mut [u32],
)
    requires blocks_len { (length blocks.now ≡ 408) × (length runs.now ≡ 121) }
    requires listed { (Listed waiting.now n) × (first < 240) × (length bounds.old ≡ 240) }
    ensures { Looked (lower_bound (stored blocks.now runs.now) first) waiting.now n bounds.new }
{
    let to = tables::place_of(blocks, runs, first);
    for j in 0..n {
        let v = waiting[j] as usize;
        bounds[v] = at_least(to, tables::place_of(blocks, runs, v));
    }
}

// The key of a mark by a clear straight to a settled mark, or its old one where that is less.
fn improved(by: Settled, at: Place, old: u32) -> u32
    requires { by.key ≤ 4294967293 }
    ensures { result ≡ min old (way_by by (point_of at)) }
{
    let ks = by.key;
    if old < ks + 2 {
        return old;
    }
    let most = ((old - ks - 2) / 256) as u64;
    let square = lengths::squared(at, by.place);
    if lengths::dearer(by.figure, square, most) {
        return old;
    }
    256 * lengths::charge(by.figure, square) as u32 + 1 + ks
}

// Exchanges the marks at the places i and j.
pub fn swap(list: &mut Waiting, i: usize, j: usize)
    requires waiting_len { (i < 194) × (j < 194) × (word list.old.order i < 240) × (word list.old.order j < 240) }
    requires i_value { (word list.old.spot (word list.old.order i) ≡ i) × (word list.old.spot (word list.old.order j) ≡ j) }
    ensures list { Exchanged list.old.order list.old.spot list.new.order list.new.spot i j }
    ensures sums { list.new.sums ≡ list.old.sums }
{
    let a = list.order[i];
    let b = list.order[j];
    list.order[i] = b;
    list.order[j] = a;
    list.spot[b as usize] = i as u8;
    list.spot[a as usize] = j as u8;
}

// Relaxes mark v by a settled mark that it has a clear straight to, unless it is settled too.
// Of the waiting marks the first u are not reached; answers how many then are.
fn relax_mark(
    places: &[u16],
    by: Settled,
    v: usize,
    u: usize,
    list: &mut Waiting,
    key: &mut [u32],
) -> usize
    requires places_len { (length places.now ≡ 480) × (by.key ≤ 4294967293) × (v < 240) }
    requires parted { (Parted (ahead places.now by) list.old.order list.old.spot key.old list.old.sums u by.left) × (Here list.old.order list.old.spot v) }
    ensures { Passed (ahead places.now by) (via places.now by) (λ x. x ≡ v) list.old.order list.old.spot key.old list.new.order list.new.spot key.new list.new.sums result by.left }
{
    let at = list.spot[v] as usize;
    if at >= by.left {
        return u;
    }
    let old = key[v];
    let here = listed_place(places, v);
    let new = improved(by, here, old);
    if old <= new {
        return u;
    }
    key[v] = new;
    if at >= u {
        list.sums[at] -= old - new;
        return u;
    }
    swap(list, at, u - 1);
    list.sums[u - 1] = new + at_least(by.goal, here);
    u - 1
}

// Relaxes the marks of one word, whose lowest bit is that of mark base.
pub fn relax_word(
    places: &[u16],
    by: Settled,
    w: u64,
    base: usize,
    u: usize,
    list: &mut Waiting,
    key: &mut [u32],
) -> usize
    requires places_len { (length places.now ≡ 480) × (by.key ≤ 4294967293) }
    requires parted { (Parted (ahead places.now by) list.old.order list.old.spot key.old list.old.sums u by.left) × ((v : ℕ) → Marked w base v → (v < 240) × (Here list.old.order list.old.spot v)) }
    ensures { Passed (ahead places.now by) (via places.now by) (Marked w base) list.old.order list.old.spot key.old list.new.order list.new.spot key.new list.new.sums result by.left }
{
    let mut low = u;
    let mut rest = w;
    while 0 < rest {
        let v = base + bits::lowest(rest) as usize;
        low = relax_mark(places, by, v, low, list, key);
        rest = bits::without_lowest(rest);
    }
    low
}

// The corners near mark v, in three words.
pub fn near_row(blocks: &[u16], pairs: &[u8], v: usize, row: &mut [u64])
    requires { (length blocks.now ≡ 408) × (length pairs.now ≡ 28680) × (v < 240) × (length row.old ≡ 3) }
    ensures { Row blocks.now pairs.now row.new v 3 }
{
    for (k, word) in row.iter_mut().enumerate() {
        *word = adjacency::adjacent_word(blocks, pairs, v, k);
    }
}

// The word q of the marks near a settled mark: the corners in the row, three words, and then one for the first end alone.
fn near_word(pairs: &[u8], row: &[u64], first: usize, mark: usize, q: usize) -> u64
    requires { (length pairs.now ≡ 28680) × (length row.now ≡ 3) × (first < 240) × (mark < 240) × (first ≡ mark → ⊥) }
    ensures { result ≡ near_word pairs.now row.now first mark q }
{
    if q < 3 {
        return row[q];
    }
    if tables::pair_byte(pairs, first, mark) == 254 {
        return 1;
    }
    0
}

// The mark of its lowest bit.
pub fn near_base(first: usize, q: usize) -> usize
    ensures { result ≡ near_base first q }
{
    if q < 3 {
        return 64 * q;
    }
    first
}

// The clear straights as a search reads them.
pub trait Straights {
    // the straight from one mark to another is clear
    ghost clear: { Self → ℕ → ℕ → Type 0 };

    // with the blocks and the first end: what is near a mark can be read
    ghost told: { Self → List ℕ → ℕ → ℕ → Type 0 };

    // The word q of the marks near a settled one: three words of corners, and then one for the first end alone.
    fn near(&self, blocks: &[u16], first: usize, mark: usize, q: usize) -> u64
        requires { (told self.now blocks.now first mark) × (first < 240) × (mark < 240) × (first ≡ mark → ⊥) × (q < 4) }
        ensures { NearWord blocks.now (clear self.now) first mark q result };
}

// Straights by the pair bytes, with the row of one mark's near corners.
#[derive(Clone, Copy)]
pub struct ByRow<'a> {
    pub pairs: &'a [u8],
    pub row: &'a [u64],
}

impl<'a> Straights for ByRow<'a> {
    ghost clear = { λ s. ByBytes s.pairs.now };

    ghost told = { λ s blocks first mark. (length s.pairs.now ≡ 28680) × Row blocks s.pairs.now s.row.now mark 3 };

    fn near(&self, _blocks: &[u16], first: usize, mark: usize, q: usize) -> u64 {
        near_word(self.pairs, self.row, first, mark, q)
    }
}

// Straights by the pair bytes, with the rows of all corners; the words of an end's row are made when they are asked for.
#[derive(Clone, Copy)]
pub struct ByPairs<'a> {
    pub pairs: &'a [u8],
    pub adj: &'a [u64],
}

impl<'a> Straights for ByPairs<'a> {
    ghost clear = { λ s. ByBytes s.pairs.now };

    ghost told = { λ s blocks first mark. (length blocks ≡ 408) × (length s.pairs.now ≡ 28680) × Rows blocks s.pairs.now s.adj.now 576 };

    fn near(&self, blocks: &[u16], first: usize, mark: usize, q: usize) -> u64 {
        if mark < 192 {
            let from = 3 * mark;
            let to = from + 3;
            return near_word(self.pairs, &self.adj[from..to], first, mark, q);
        }
        if q < 3 {
            return adjacency::adjacent_word(blocks, self.pairs, mark, q);
        }
        near_word(self.pairs, &[0; 3], first, mark, q)
    }
}

// Relaxes every waiting mark that has a clear straight to a settled one.
pub fn relax<S: Straights>(
    blocks: &[u16],
    places: &[u16],
    straights: &S,
    by: Settled,
    first: usize,
    u: usize,
    list: &mut Waiting,
    key: &mut [u32],
) -> usize
    requires places_len { (length places.now ≡ 480) × (by.key ≤ 4294967293) × (S.told straights.now blocks.now first by.mark) }
    requires first_bound { (first < 240) × (by.mark < 240) × (first ≡ by.mark → ⊥) }
    requires parted { (Parted (ahead places.now by) list.old.order list.old.spot key.old list.old.sums u by.left) × (Bends blocks.now first list.old.order list.old.spot by.left) }
    ensures { Passed (ahead places.now by) (via places.now by) (Seen (S.clear straights.now) by.mark) list.old.order list.old.spot key.old list.new.order list.new.spot key.new list.new.sums result by.left }
{
    let mut low = u;
    for q in 0..4 {
        let w = straights.near(blocks, first, by.mark, q);
        let base = near_base(first, q);
        low = relax_word(places, by, w, base, low, list, key);
    }
    low
}
