// Words as sets of small numbers: the lowest, all but it, one more, one less, those of two.
#![tactic(auto)]

ghost use Rattle.std.specs.Prelude.{◌≡◌, ℕ, ◌+◌, ◌*◌, ◌<◌, min};
ghost use Rattle.bits.specs.inner.Bits.{bit, Lowest, WithoutLowest, With, Without, Packed};

// The lowest set bit of a word that is not 0.
pub fn lowest(c: u64) -> u32
    requires { 0 < c }
    ensures { Lowest c result }
{
    c.trailing_zeros()
}

// The word without its lowest set bit.
pub fn without_lowest(c: u64) -> u64
    requires { 0 < c }
    ensures { WithoutLowest c result }
{
    c & (c - 1)
}

// The word with one more bit below.
pub fn below(c: u64, x: u64) -> u64
    requires { (c < 9223372036854775808) × (x < 2) }
    ensures { (bit 0 result ≡ x) × ((i : ℕ) → bit (i + 1) result ≡ bit i c) × (result ≡ 2 * c + x) }
{
    2 * c + x
}

// The word with bit b set.
pub fn with_bit(c: u64, b: u32) -> u64
    requires { b < 64 }
    ensures { With c b result }
{
    c | (1u64 << b)
}

// The word with bit b clear.
pub fn without_bit(c: u64, b: u32) -> u64
    requires { b < 64 }
    ensures { Without c b result }
{
    with_bit(c, b) ^ (1u64 << b)
}

// Bit b of the word.
pub fn bit_at(c: u64, b: u32) -> u64
    requires { b < 64 }
    ensures { result ≡ bit b c }
{
    (c >> b) % 2
}

// The word with bit n set where b is not 0.
pub fn packed(c: u64, n: u32, b: u8) -> u64
    requires { n < 64 }
    ensures { Packed c n b result }
{
    if b == 0 { c } else { with_bit(c, n) }
}

// The bits of both words.
pub fn both(c: u64, d: u64) -> u64
    ensures { (i : ℕ) → bit i result ≡ min (bit i c) (bit i d) }
{
    c & d
}
