// Routes as drawn pieces: straights, and rounded bends at the inner marks.
#![tactic(auto)]

ghost use Rattle.std.specs.Prelude.{◌≡◌, ◌+◌, ◌*◌, ◌<◌, ◌≤◌, length};
ghost use Rattle.lists.specs.inner.Tells.{Tells};
ghost use Rattle.geometry.specs.Words.{point_of, word};
ghost use Rattle.tables.specs.Tables.{stored};
ghost use Rattle.curves.specs.Curve.{bend_at, At};
ghost use Rattle.pieces.specs.Pieces.{piece_at};
ghost use Rattle.pieces.specs.Showing.{Shows, origin, Row, Bent};
ghost use Rattle.pieces.specs.inner.Steps.{Drawable, mark_place, turn_at, leaving, reaching, OnBend, Put};

use curves::{Spot, at, placed};
use geometry::Place;
use tables::place_of;

// A straight carries its two points, a bend its start, corner and finish.
#[derive(Clone, Copy)]
pub enum DrawnPiece {
    Straight(Spot, Spot),
    Bend(Spot, Spot, Spot),
}

// The place of mark i of a route record.
fn mark_place(blocks: &[u16], runs: &[u16], route: &[u32], i: usize) -> Place
    requires { (Drawable (stored blocks.now runs.now) route.now) × (i < word route.now 2) }
    ensures { point_of result ≡ mark_place (stored blocks.now runs.now) route.now i }
{
    place_of(blocks, runs, route[3 + i] as usize)
}

// The bend at inner mark i, at t eighths.
fn turn_at(blocks: &[u16], runs: &[u16], route: &[u32], i: usize, t: u32) -> Spot
    requires { (Drawable (stored blocks.now runs.now) route.now) × (0 < i) × (i + 1 < word route.now 2) × (t ≤ 8) }
    ensures { At (turn_at (stored blocks.now runs.now) route.now i t) result }
{
    let a = mark_place(blocks, runs, route, i - 1);
    let p = mark_place(blocks, runs, route, i);
    let c = mark_place(blocks, runs, route, i + 1);
    at(a, p, c, t)
}

// Where the straight from mark i starts.
fn leaving(blocks: &[u16], runs: &[u16], route: &[u32], i: usize) -> Spot
    requires { (Drawable (stored blocks.now runs.now) route.now) × (i + 1 < word route.now 2) }
    ensures { At (leaving (stored blocks.now runs.now) route.now i) result }
{
    if i == 0 {
        return placed(mark_place(blocks, runs, route, i));
    }
    turn_at(blocks, runs, route, i, 8)
}

// Where the straight to mark i ends.
fn reaching(blocks: &[u16], runs: &[u16], route: &[u32], i: usize) -> Spot
    requires { (Drawable (stored blocks.now runs.now) route.now) × (0 < i) × (i < word route.now 2) }
    ensures { At (reaching (stored blocks.now runs.now) route.now i) result }
{
    if i + 1 == route[2] as usize {
        return placed(mark_place(blocks, runs, route, i));
    }
    turn_at(blocks, runs, route, i, 0)
}

// Piece k of a route record.
pub fn drawn(blocks: &[u16], runs: &[u16], route: &[u32], k: u32) -> Option<DrawnPiece>
    requires { Drawable (stored blocks.now runs.now) route.now }
    ensures { Shows (piece_at (stored blocks.now runs.now) route.now k) result }
{
    let n = route[2] as usize;
    if 2 * n <= k as usize + 3 {
        return None;
    }
    let i = k as usize / 2;
    if k % 2 == 0 {
        let s = leaving(blocks, runs, route, i);
        let t = reaching(blocks, runs, route, i + 1);
        return Some(DrawnPiece::Straight(s, t));
    }
    let start = turn_at(blocks, runs, route, i + 1, 0);
    let corner = placed(mark_place(blocks, runs, route, i + 1));
    let finish = turn_at(blocks, runs, route, i + 1, 8);
    Some(DrawnPiece::Bend(start, corner, finish))
}

// Spot t of a list.
pub fn put(points: &mut [f64], t: usize, s: Spot)
    requires { 2 * t + 1 < length points.old }
    ensures { Put points.old t s points.new }
{
    let i = 2 * t;
    points[i] = s.east;
    points[i + 1] = s.north;
}

// The nine points of the bend at p.
fn put_curve(points: &mut [f64], a: Place, p: Place, c: Place)
    requires { length points.old ≡ 18 }
    ensures { Row (bend_at (point_of a) (point_of p) (point_of c)) 9 points.new }
{
    for t in 0..9 {
        put(points, t as usize, at(a, p, c, t));
    }
}

// Nine points that are 0.
fn put_none(points: &mut [f64])
    requires { length points.old ≡ 18 }
    ensures { Row (λ t. origin) 9 points.new }
{
    let o = Place { east: 0, north: 0 };
    put_curve(points, o, o, o);
}

// Whether piece k of a route record is a bend.
fn is_bend(route: &[u32], k: u32) -> bool
    requires { (length route.now ≡ 197) × (word route.now 2 ≤ 194) }
    ensures { Tells (OnBend route.now k) result }
{
    let n = route[2] as usize;
    k as usize + 3 < 2 * n && k % 2 == 1
}

// Whether piece k of a route record is a bend; its nine points, and zeros where it is none.
pub fn bent(blocks: &[u16], runs: &[u16], route: &[u32], k: u32, points: &mut [f64]) -> bool
    requires { (Drawable (stored blocks.now runs.now) route.now) × (length points.old ≡ 18) }
    ensures { Bent (piece_at (stored blocks.now runs.now) route.now k) result points.new }
{
    if !is_bend(route, k) {
        put_none(points);
        return false;
    }
    let i = k as usize / 2;
    let a = mark_place(blocks, runs, route, i);
    let p = mark_place(blocks, runs, route, i + 1);
    let c = mark_place(blocks, runs, route, i + 2);
    put_curve(points, a, p, c);
    true
}
