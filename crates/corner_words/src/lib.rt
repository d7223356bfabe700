// Words of 64 bits that stand for corners: the present ones, those strictly left of a side of a block, and rows of them that are mirrored.
#![tactic(auto)]

ghost use Rattle.std.specs.Prelude.{◌≡◌, true, ℕ, ◌+◌, ◌*◌, ◌<◌, length};
ghost use Rattle.geometry.specs.Words.{word};
ghost use Rattle.bits.specs.inner.Bits.{bit};
ghost use Rattle.tables.specs.Tables.{is_corner};
ghost use Rattle.adjacency.specs.inner.Adjacent.{Shows};
ghost use Rattle.corner_words.specs.inner.Corners.{LowBits, Lower, CornersOf, Lefts, OpenWord};
ghost use Rattle.corner_words.specs.inner.Mirrors.{LowerOnly, Mirrored, TurnedWord};

// 1 where corner u is present, else 0.
fn corner_bit(blocks: &[u16], u: usize) -> u64
    requires { length blocks.now ≡ 408 }
    ensures { Shows (is_corner blocks.now u ≡ true) result }
{
    u64::from(tables::is_corner(blocks, u))
}

// The corners 64 q to 64 q + 63 that are present.
fn corner_word(blocks: &[u16], q: usize) -> u64
    requires { (length blocks.now ≡ 408) × (q < 3) }
    ensures { (i : ℕ) → i < 64 → Shows (is_corner blocks.now (64 * q + i) ≡ true) (bit i result) }
{
    let mut w = 0;
    for k in (0..64).rev() {
        w = bits::below(w, corner_bit(blocks, 64 * q + k));
    }
    w
}

// All of them.
pub fn mark_corners(blocks: &[u16], corners: &mut [u64])
    requires { (length blocks.now ≡ 408) × (length corners.old ≡ 3) }
    ensures { CornersOf blocks.now corners.new 3 }
{
    for (q, word) in corners.iter_mut().enumerate() {
        *word = corner_word(blocks, q);
    }
}

// The lowest n bits of a word.
fn low_bits(w: u64, n: u32) -> u64
    requires { n < 64 }
    ensures { LowBits w n result }
{
    w % (1u64 << n)
}

// Those of one word that are below mark v.
pub fn lower_corners(blocks: &[u16], corners: &[u64], v: usize, q: usize) -> u64
    requires { (CornersOf blocks.now corners.now 3) × (v < 240) × (q < 3) }
    ensures { (i : ℕ) → i < 64 → Shows (Lower blocks.now v (64 * q + i)) (bit i result) }
{
    let w = corners[q];
    let low = 64 * q;
    if v <= low {
        return 0;
    }
    if low + 64 <= v {
        return w;
    }
    low_bits(w, (v - low) as u32)
}

// 1 where a place with the code c is strictly left of side b, else 0.
fn left_bit(c: u8, b: u32) -> u64
    requires { b < 64 }
    ensures { Shows (bit b c ≡ 0) result }
{
    1 - bits::bit_at(u64::from(c), b)
}

// The corners 64 q to 64 q + 63 that are strictly left of side b, by their codes.
fn left_word(codes: &[u8], b: usize, q: usize) -> u64
    requires { (length codes.now ≡ 240) × (b < 8) × (q < 3) }
    ensures { (i : ℕ) → i < 64 → bit i result ≡ 0 → bit b (word codes.now (64 * q + i)) ≡ 1 }
{
    let mut w = 0;
    for k in (0..64).rev() {
        w = bits::below(w, left_bit(codes[64 * q + k], b as u32));
    }
    w
}

// The same for every side.
pub fn mark_lefts(codes: &[u8], lefts: &mut [u64])
    requires { (length codes.now ≡ 240) × (length lefts.old ≡ 24) }
    ensures { Lefts codes.now lefts.new 24 }
{
    for (k, word) in lefts.iter_mut().enumerate() {
        *word = left_word(codes, k / 3, k % 3);
    }
}

// The corners of w that are strictly left of every side which a place with the code c is not left of: the block hides the straight to no other.
pub fn open_word(lefts: &[u64], c: u8, q: usize, w: u64) -> u64
    requires { (length lefts.now ≡ 24) × (q < 3) }
    ensures { OpenWord lefts.now c q w result }
{
    let mut r = w;
    let mut rest = u64::from(c);
    while 0 < rest {
        let b = bits::lowest(rest) as usize;
        r = bits::both(r, lefts[3 * b + q]);
        rest = bits::without_lowest(rest);
    }
    r
}

// Enters the mark of word k of the rows in the row of each corner of the word.
fn mirror_word(rows: &mut [u64], k: usize)
    requires { (length rows.old ≡ 720) × (k < 576) }
    ensures { TurnedWord rows.old rows.new k }
{
    let v = k / 3;
    let low = 64 * (k % 3);
    let mut rest = rows[k];
    while 0 < rest {
        let u = low + bits::lowest(rest) as usize;
        let at = 3 * u + v / 64;
        rows[at] = bits::with_bit(rows[at], (v % 64) as u32);
        rest = bits::without_lowest(rest);
    }
}

// The same for every word of a corner's row.
pub fn mirror(rows: &mut [u64])
    requires { LowerOnly rows.old }
    ensures { Mirrored rows.old rows.new }
{
    for k in 0..576 {
        mirror_word(rows, k);
    }
}
