// The routes of a yard, as they are drawn.
#![tactic(auto)]

ghost use Rattle.std.specs.Prelude.{◌≡◌, true, [], ◌∷◌, length};
ghost use Rattle.refusals.specs.Numbers.{answer_of};
ghost use Rattle.tables.specs.Tables.{tables};
ghost use Rattle.curves.specs.Curve.{At};
ghost use Rattle.pieces.specs.Showing.{origin};
ghost use Rattle.drawn_routes.specs.Calls.{Asked, Pieced, Curved};
ghost use Rattle.drawn_routes.specs.Lists.{PieceFilled, BendFilled};
ghost use Rattle.drawn_routes.specs.inner.Spots.{Three};

use answers::named;
use curves::{Spot, placed};
use geometry::Place;
use pieces::{DrawnPiece, bent, drawn, put};
use refusals::Refusal;
use yard::check;

// Questions 1, 2, 3, 5 and 11.
fn asked(
    blocks: &[u16],
    runs: &[u16],
    pairs: &[u8],
    routes: &[u32],
    totals: &[u32],
    number: u32,
) -> Result<(), Refusal>
    ensures { Asked true (tables blocks.now runs.now pairs.now routes.now totals.now) number (answer_of result) }
{
    named(blocks, runs, pairs, routes, totals, number)?;
    let m = number as usize;
    if runs[5 * m] == 0 {
        return Err(Refusal::Absent);
    }
    check(blocks, runs, pairs, routes, totals)
}

// Piece k of run number's route, counted from 0.
pub fn piece(
    blocks: &[u16],
    runs: &[u16],
    pairs: &[u8],
    routes: &[u32],
    totals: &[u32],
    number: u32,
    k: u32,
) -> Result<Option<DrawnPiece>, Refusal>
    ensures { Pieced (tables blocks.now runs.now pairs.now routes.now totals.now) number k result }
{
    asked(blocks, runs, pairs, routes, totals, number)?;
    let at = 197 * number as usize;
    let end = at + 197;
    Ok(drawn(blocks, runs, &routes[at..end], k))
}

// Whether piece k of run number's route is a bend, and its nine points in order of t, east and north: 18 floats.
pub fn bend_points(
    blocks: &[u16],
    runs: &[u16],
    pairs: &[u8],
    routes: &[u32],
    totals: &[u32],
    number: u32,
    k: u32,
    points: &mut [f64],
) -> Result<bool, Refusal>
    ensures { Curved (tables blocks.now runs.now pairs.now routes.now totals.now) number k
        points.old result points.new }
{
    if points.len() != 18 {
        return Err(Refusal::WrongLengths);
    }
    asked(blocks, runs, pairs, routes, totals, number)?;
    let at = 197 * number as usize;
    let end = at + 197;
    Ok(bent(blocks, runs, &routes[at..end], k, points))
}

fn put_kind(kind: &mut [u32], v: u32)
    requires { length kind.old ≡ 1 }
    ensures { kind.new ≡ v ∷ [] }
{
    kind[0] = v;
}

fn nowhere() -> Spot
    ensures { At origin result }
{
    placed(Place { east: 0, north: 0 })
}

fn put_three(points: &mut [f64], a: Spot, b: Spot, c: Spot)
    requires { length points.old ≡ 6 }
    ensures { Three a b c points.new }
{
    put(points, 0, a);
    put(points, 1, b);
    put(points, 2, c);
}

// Piece k into a word that tells its kind (0 none, 1 straight, 2 bend) and six floats.
pub fn fill_piece(
    blocks: &[u16],
    runs: &[u16],
    pairs: &[u8],
    routes: &[u32],
    totals: &[u32],
    number: u32,
    k: u32,
    kind: &mut [u32],
    points: &mut [f64],
) -> Result<(), Refusal>
    ensures { PieceFilled (tables blocks.now runs.now pairs.now routes.now totals.now) number k
        kind.old points.old (answer_of result) kind.new points.new }
{
    if kind.len() != 1 {
        return Err(Refusal::WrongLengths);
    }
    if points.len() != 6 {
        return Err(Refusal::WrongLengths);
    }
    let drawn = piece(blocks, runs, pairs, routes, totals, number, k)?;
    let Some(shown) = drawn else {
        let o = nowhere();
        put_kind(kind, 0);
        put_three(points, o, o, o);
        return Ok(());
    };
    match shown {
        DrawnPiece::Straight(s, t) => {
            put_kind(kind, 1);
            put_three(points, s, t, nowhere());
            Ok(())
        }
        DrawnPiece::Bend(s, q, t) => {
            put_kind(kind, 2);
            put_three(points, s, q, t);
            Ok(())
        }
    }
}

// The nine points of piece k into a word that tells whether it is a bend (2, else 0) and eighteen floats.
pub fn fill_bend(
    blocks: &[u16],
    runs: &[u16],
    pairs: &[u8],
    routes: &[u32],
    totals: &[u32],
    number: u32,
    k: u32,
    kind: &mut [u32],
    points: &mut [f64],
) -> Result<(), Refusal>
    ensures { BendFilled (tables blocks.now runs.now pairs.now routes.now totals.now) number k
        kind.old points.old (answer_of result) kind.new points.new }
{
    if kind.len() != 1 {
        return Err(Refusal::WrongLengths);
    }
    if bend_points(blocks, runs, pairs, routes, totals, number, k, points)? {
        put_kind(kind, 2);
        return Ok(());
    }
    put_kind(kind, 0);
    Ok(())
}
