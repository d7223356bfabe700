// The points of a rounded bend, in floats that are exact.
#![tactic(auto)]

ghost use Rattle.std.specs.Prelude.{◌≡◌, ◌*◌, ◌≤◌, pos};
ghost use Rattle.geometry.specs.Words.{point_of};
ghost use Rattle.curves.specs.Floats.{Exact};
ghost use Rattle.curves.specs.Curve.{cube, curve, bend_at, whole, At};
ghost use Rattle.curves.specs.inner.Numerators.{Moderate, Mixed};

use geometry::Place;

// A drawn place: east, then north, in centimetres.
#[derive(Clone, Copy)]
pub struct Spot {
    pub east: f64,
    pub north: f64,
}

// The float that is the numerator over 4,096, exactly.
fn coordinate(numerator: i64) -> f64
    requires { Moderate numerator }
    ensures { Exact numerator result }
{
    numerator as f64 / 4096.0
}

fn share(numerator: u32) -> f64
    ensures { Exact (pos numerator) result }
{
    coordinate(i64::from(numerator))
}

fn cube(t: u32) -> u32
    requires { t ≤ 8 }
    ensures { (result ≡ cube t) × (result ≤ 512) }
{
    t * t * t
}

fn scaled(w: u32, x: u16) -> u32
    requires { w ≤ 4096 }
    ensures { (result ≡ w * x) × (result ≤ w * 65535) }
{
    w * u32::from(x)
}

fn mixed(from: u32, to: u32, a: u16, p: u16, c: u16) -> u32
    requires { (from ≤ 512) × (to ≤ 512) }
    ensures { Mixed from to a p c result }
{
    scaled(from, a) + scaled(4096 - from - to, p) + scaled(to, c)
}

// One coordinate of the bend at p, t eighths on the way from a to c, in 4,096ths.
fn numerator(a: u16, p: u16, c: u16, t: u32) -> u32
    requires { t ≤ 8 }
    ensures { result ≡ curve a p c t }
{
    mixed(cube(8 - t), cube(t), a, p, c)
}

// The point at t eighths of the bend at p between a and c.
pub fn at(a: Place, p: Place, c: Place, t: u32) -> Spot
    requires { t ≤ 8 }
    ensures { At (bend_at (point_of a) (point_of p) (point_of c) t) result }
{
    Spot {
        east: share(numerator(a.east, p.east, c.east, t)),
        north: share(numerator(a.north, p.north, c.north, t)),
    }
}

// A place itself.
pub fn placed(p: Place) -> Spot
    ensures { At (whole (point_of p)) result }
{
    Spot {
        east: share(4096 * u32::from(p.east)),
        north: share(4096 * u32::from(p.north)),
    }
}
