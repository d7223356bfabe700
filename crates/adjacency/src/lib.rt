// Which corners each mark has a clear straight to, as bits.
#![tactic(auto)]

ghost use Rattle.std.specs.Prelude.{◌≡◌, true, ℕ, ◌+◌, ◌*◌, ◌<◌, ◌≤◌, length};
ghost use Rattle.bits.specs.inner.Bits.{bit};
ghost use Rattle.lists.specs.inner.Filled.{filled};
ghost use Rattle.tables.specs.Tables.{is_corner, pair_index};
ghost use Rattle.adjacency.specs.inner.Adjacent.{Adjacent, Said, Shows, RowsBy, Entered, Noted, NoneClear};

// 1 where the byte says clear and corner u is present, else 0.
fn clear_corner(blocks: &[u16], byte: u8, u: usize) -> u64
    requires { length blocks.now ≡ 408 }
    ensures { Shows ((is_corner blocks.now u ≡ true) × (byte ≡ 254)) result }
{
    if byte != 254 {
        return 0;
    }
    if tables::is_corner(blocks, u) {
        return 1;
    }
    0
}

// 1 where corner u is present and has a clear straight to mark v, else 0.
pub fn adjacent(blocks: &[u16], pairs: &[u8], v: usize, u: usize) -> u64
    requires { (length blocks.now ≡ 408) × (length pairs.now ≡ 28680) × (v < 240) × (u < 192) }
    ensures { Shows (Adjacent blocks.now pairs.now v u) result }
{
    if u == v {
        return 0;
    }
    clear_corner(blocks, tables::pair_byte(pairs, u, v), u)
}

// The corners 64 q to 64 q + 63 that are near mark v, each by its pair.
fn word_by_pairs(blocks: &[u16], pairs: &[u8], v: usize, q: usize) -> u64
    requires { (length blocks.now ≡ 408) × (length pairs.now ≡ 28680) × (v < 240) × (q < 3) }
    ensures { (i : ℕ) → i < 64 → Shows (Adjacent blocks.now pairs.now v (64 * q + i)) (bit i result) }
{
    let mut w = 0;
    for k in (0..64).rev() {
        let x = adjacent(blocks, pairs, v, 64 * q + k);
        w = bits::below(w, x);
    }
    w
}

// The same for a mark above all corners, whose bytes stand together.
fn word_by_row(blocks: &[u16], pairs: &[u8], v: usize, q: usize) -> u64
    requires { (length blocks.now ≡ 408) × (length pairs.now ≡ 28680) × (192 ≤ v) × (v < 240) × (q < 3) }
    ensures { (i : ℕ) → i < 64 → Shows (Adjacent blocks.now pairs.now v (64 * q + i)) (bit i result) }
{
    let start = tables::pair_index(64 * q, v);
    let mut w = 0;
    for k in (0..64).rev() {
        let x = clear_corner(blocks, pairs[start + k], 64 * q + k);
        w = bits::below(w, x);
    }
    w
}

// The corners 64 q to 64 q + 63 that are near mark v.
pub fn adjacent_word(blocks: &[u16], pairs: &[u8], v: usize, q: usize) -> u64
    requires { (length blocks.now ≡ 408) × (length pairs.now ≡ 28680) × (v < 240) × (q < 3) }
    ensures { (i : ℕ) → i < 64 → Shows (Adjacent blocks.now pairs.now v (64 * q + i)) (bit i result) }
{
    if v < 192 {
        return word_by_pairs(blocks, pairs, v, q);
    }
    word_by_row(blocks, pairs, v, q)
}

fn clear(adj: &mut [u64])
    ensures { adj.new ≡ filled (length adj.old) 0 }
{
    adj.fill(0);
}

// Sets bit u of row v, if corner u is there.
fn note(adj: &mut [u64], v: usize, u: usize, there: bool)
    requires { (576 ≤ length adj.old) × (v < 192) × (u < 192) }
    ensures { Noted adj.old adj.new v u there }
{
    if !there {
        return;
    }
    let k = 3 * v + u / 64;
    adj[k] = bits::with_bit(adj[k], (u % 64) as u32);
}

// Enters the byte of corners i and j, which stands at `at`, in the rows of both.
fn enter(blocks: &[u16], pairs: &[u8], adj: &mut [u64], at: usize, i: usize, j: usize, there: bool)
    requires blocks_len { (length blocks.now ≡ 408) × (length pairs.now ≡ 28680) × (i < j) × (j < 192) × (at ≡ pair_index i j) × (there ≡ is_corner blocks.now j) }
    requires entered { Entered blocks.now pairs.now adj.old at }
    ensures { Entered blocks.now pairs.now adj.new (at + 1) }
{
    if pairs[at] != 254 {
        return;
    }
    note(adj, j, i, tables::is_corner(blocks, i));
    note(adj, i, j, there);
}

// Whether none of the sixteen bytes from `at` on says clear.
fn none_clear(pairs: &[u8], at: usize) -> bool
    requires { at + 16 ≤ length pairs.now }
    ensures { result ≡ true → NoneClear pairs.now at 16 }
{
    let mut any = false;
    for k in 0..16 {
        any |= pairs[at + k] == 254;
    }
    !any
}

// Enters the bytes of corner j and the corners from i to the one before `end`.
fn enter_each(
    blocks: &[u16],
    pairs: &[u8],
    adj: &mut [u64],
    start: usize,
    i: usize,
    end: usize,
    j: usize,
)
    requires blocks_len { (length blocks.now ≡ 408) × (length pairs.now ≡ 28680) × (i ≤ end) × (end ≤ j) × (j < 192) × (start ≡ pair_index 0 j) }
    requires entered { Entered blocks.now pairs.now adj.old (start + i) }
    ensures { Entered blocks.now pairs.now adj.new (start + end) }
{
    let there = tables::is_corner(blocks, j);
    for k in i..end {
        enter(blocks, pairs, adj, start + k, k, j, there);
    }
}

// The same of sixteen corners from i on, of which most often none has a clear straight.
fn enter_sixteen(blocks: &[u16], pairs: &[u8], adj: &mut [u64], start: usize, i: usize, j: usize)
    requires blocks_len { (length blocks.now ≡ 408) × (length pairs.now ≡ 28680) × (i + 16 ≤ j) × (j < 192) × (start ≡ pair_index 0 j) }
    requires entered { Entered blocks.now pairs.now adj.old (start + i) }
    ensures { Entered blocks.now pairs.now adj.new (start + (i + 16)) }
{
    if none_clear(pairs, start + i) {
        return;
    }
    enter_each(blocks, pairs, adj, start, i, i + 16, j);
}

// Enters the bytes of corner j and the corners below it, which begin at `start`.
fn enter_row(blocks: &[u16], pairs: &[u8], adj: &mut [u64], start: usize, j: usize)
    requires blocks_len { (length blocks.now ≡ 408) × (length pairs.now ≡ 28680) × (j < 192) × (start ≡ pair_index 0 j) }
    requires entered { Entered blocks.now pairs.now adj.old start }
    ensures { Entered blocks.now pairs.now adj.new (start + j) }
{
    let sixteens = j / 16;
    for k in 0..sixteens {
        enter_sixteen(blocks, pairs, adj, start, 16 * k, j);
    }
    enter_each(blocks, pairs, adj, start, 16 * sixteens, j, j);
}

// The corners near each corner, in three words each.
fn fill_corners(blocks: &[u16], pairs: &[u8], adj: &mut [u64])
    requires { (length blocks.now ≡ 408) × (length pairs.now ≡ 28680) × (576 ≤ length adj.old) }
    ensures { RowsBy blocks.now (Said pairs.now) (length adj.old) adj.new 576 }
{
    clear(adj);
    let mut start = 0;
    for j in 0..192 {
        enter_row(blocks, pairs, adj, start, j);
        start += j;
    }
}

// The corners near each of as many marks as there are rows, in three words each: the 192 corners, or more marks.
pub fn fill_rows(blocks: &[u16], pairs: &[u8], adj: &mut [u64])
    requires { (length blocks.now ≡ 408) × (length pairs.now ≡ 28680) × (576 ≤ length adj.old) × (length adj.old ≤ 720) }
    ensures { RowsBy blocks.now (Said pairs.now) (length adj.old) adj.new (length adj.old) }
{
    fill_corners(blocks, pairs, adj);
    for k in 576..adj.len() {
        adj[k] = adjacent_word(blocks, pairs, k / 3, k % 3);
    }
}
