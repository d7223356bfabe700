// Exact lengths on whole centimetres: roots, rounded up, and what is charged by them.
#![tactic(auto)]

ghost use Rattle.std.specs.Prelude.{◌≡◌, ◌+◌, ◌*◌, ◌<◌, ◌≤◌, ltb, eqb};
ghost use Rattle.geometry.specs.Words.{point_of};
ghost use Rattle.lengths.specs.Length.{gap, squared, root_up};
ghost use Rattle.lengths.specs.Charge.{charge};
ghost use Rattle.lengths.specs.inner.Roots.{Root};

use geometry::Place;

// The root of n, rounded down.
pub fn root(n: u64) -> u64
    ensures { Root n result }
{
    if n == 0 {
        return 0;
    }
    let r = 2 * root(n / 4);
    let s = r + 1;
    if s * s <= n { s } else { r }
}

// The smallest number whose square is at least n, by the root.
fn slow_root_up(n: u64) -> u64
    requires { n ≤ 8589672450 }
    ensures { result ≡ root_up n }
{
    let r = root(n);
    if r * r < n { r + 1 } else { r }
}

// A step from a guess towards the root of n.
fn nearer(n: u64, g: u64) -> u64
    requires { (0 < n) × (n ≤ 4294967295) × (0 < g) × (g ≤ 4294967295) }
    ensures { (0 < result) × (result ≤ 4294967295) }
{
    (g + n / g) / 2
}

// A number less than 1 from the root of n, for n from 4 on. That is not promised: who asks checks it.
fn guess(n: u32) -> u64
    ensures { result ≤ 4294967295 }
{
    if n < 4 {
        return 0;
    }
    let k = n.leading_zeros() / 2;
    let start = u64::from((n << k) / 131072) + (27500u64 >> k);
    let whole = u64::from(n);
    nearer(whole, nearer(whole, start))
}

// The smallest number whose square is at least n: by a guess where its square says that it is right.
pub fn root_up(n: u64) -> u64
    requires { n ≤ 8589672450 }
    ensures { result ≡ root_up n }
{
    let g = guess((n % 4294967296) as u32);
    let s = g * g;
    if n <= s {
        if s + 1 < n + 2 * g {
            return g;
        }
        return slow_root_up(n);
    }
    let w = g + 1;
    if n <= w * w {
        return w;
    }
    slow_root_up(n)
}

// How far apart two coordinates are.
pub fn apart(a: u16, b: u16) -> u64
    ensures value { result ≡ gap a b }
    ensures small { result ≤ 65535 }
{
    u64::from(a.abs_diff(b))
}

// The square of how far apart they are, with no branch.
#[tactic(auto, using(crate::proofs::Squares::gap_square_small))]
fn square_apart(a: u16, b: u16) -> u64
    ensures value { result ≡ gap a b * gap a b }
    ensures small { result ≤ 4294836225 }
{
    let d = i64::from(a) - i64::from(b);
    (d * d) as u64
}

// The squared length of a segment, not rounded.
pub fn squared(a: Place, b: Place) -> u64
    ensures value { result ≡ squared (point_of a) (point_of b) }
    ensures small { result ≤ 8589672450 }
{
    square_apart(a.east, b.east) + square_apart(a.north, b.north)
}

// What a straight is charged, by its squared length.
pub fn charge(figure: u64, square: u64) -> u64
    requires { square ≤ 8589672450 }
    ensures { result ≡ charge figure (root_up square) }
{
    let length = root_up(square);
    if length == 0 { 0 } else { length.max(figure) }
}

// Whether that is more than a number. No root is taken.
pub fn dearer(figure: u64, square: u64, most: u64) -> bool
    requires { most ≤ 16777215 }
    ensures { result ≡ ltb most (charge figure (root_up square)) }
{
    square != 0 && (most < figure || most * most < square)
}

// Whether that is just a number. No root is taken.
pub fn is_charge(figure: u64, square: u64, cost: u64) -> bool
    requires { cost ≤ 16777215 }
    ensures { result ≡ eqb (charge figure (root_up square)) cost }
{
    !dearer(figure, square, cost) && (cost == 0 || dearer(figure, square, cost - 1))
}
