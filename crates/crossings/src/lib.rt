// The crossings of a duct's lines, and the steps between them: each straight is tested once, and its answer is kept.
#![tactic(auto)]

ghost use Rattle.std.specs.Prelude.{◌≡◌, ◌+◌, ◌<◌, ◌≤◌, length, min};
ghost use Rattle.geometry.specs.Words.{point_of};
ghost use Rattle.geometry.specs.inner.Bounds.{Bounded};
ghost use Rattle.seams.specs.inner.Near.{Near};
ghost use Rattle.lists.specs.inner.Tells.{Tells};
ghost use Rattle.crossings.specs.Grid.{Stepping, crossing_at};
ghost use Rattle.crossings.specs.inner.Charts.{ruled, Ruled, spot, span, Charted, west_of, south_of, north_of, east_of, step_of, axis_by};
ghost use Rattle.crossings.specs.inner.Directions.{code, axis_code, Target};

use geometry::Place;
use lengths::apart;
use lines::index_of;
use neighbours::mark_near;
use visibility::is_clear;

// The axis of a step.
#[derive(Clone, Copy, Debug, PartialEq, Eq)]
pub enum Axis {
    NorthSouth,
    EastWest,
}

// The direction of a step, in the order of the crossings that it leads to.
#[derive(Clone, Copy, Debug, PartialEq, Eq)]
pub enum Direction {
    West,
    South,
    North,
    East,
}

impl Direction {
    // The direction that a number stands for: 3 and above is east.
    pub fn numbered(d: usize) -> Direction
        ensures { code result ≡ min d 3 }
    {
        match d {
            0 => Direction::West,
            1 => Direction::South,
            2 => Direction::North,
            _ => Direction::East,
        }
    }

    #[tactic(auto, unfolding(crate::specs::inner::Charts::axis_by))]
    pub fn axis(self) -> Axis
        ensures { axis_code result ≡ axis_by (code self) }
    {
        match self {
            Direction::West | Direction::East => Axis::EastWest,
            Direction::South | Direction::North => Axis::NorthSouth,
        }
    }
}

// The place of crossing v.
#[tactic(auto, unfolding(crate::specs::inner::Charts::spot))]
pub fn spot(xs: &[u16], ys: &[u16], v: usize) -> Place
    requires { (length xs.now ≡ 194) × (length ys.now ≡ 194) × (v < 4356) }
    ensures { point_of result ≡ spot xs.now ys.now v }
{
    Place {
        east: xs[v / 66],
        north: ys[v % 66],
    }
}

// The crossing at a place on two lines.
pub fn crossing_at(xs: &[u16], nx: usize, ys: &[u16], ny: usize, p: Place) -> usize
    requires { (length xs.now ≡ 194) × (length ys.now ≡ 194) × (nx ≤ 194) × (ny ≤ 194) }
    ensures { result ≡ crossing_at (ruled xs.now nx ys.now ny) (point_of p) }
{
    66 * index_of(xs, nx, p.east) + index_of(ys, ny, p.north)
}

// Whether the step north from v is clear.
fn north_clear(
    blocks: &[u16],
    near: &[u8],
    xs: &[u16],
    nx: usize,
    ys: &[u16],
    ny: usize,
    v: usize,
) -> bool
    requires { (Bounded blocks.now) × (Near blocks.now near.now) × (Ruled xs.now nx ys.now ny) × (v < 4356) }
    ensures { Tells (Stepping blocks.now (ruled xs.now nx ys.now ny) v (v + 1)) result }
{
    if nx <= v / 66 || ny <= v % 66 + 1 {
        return false;
    }
    is_clear(blocks, near, spot(xs, ys, v), spot(xs, ys, v + 1))
}

// Whether the step east from v is clear.
fn east_clear(
    blocks: &[u16],
    near: &[u8],
    xs: &[u16],
    nx: usize,
    ys: &[u16],
    ny: usize,
    v: usize,
) -> bool
    requires { (Bounded blocks.now) × (Near blocks.now near.now) × (Ruled xs.now nx ys.now ny) × (v < 4356) }
    ensures { Tells (Stepping blocks.now (ruled xs.now nx ys.now ny) v (v + 66)) result }
{
    if nx <= v / 66 + 1 || ny <= v % 66 {
        return false;
    }
    is_clear(blocks, near, spot(xs, ys, v), spot(xs, ys, v + 66))
}

// Tests each step once: 1 for north and 2 for east at the crossing that it leaves.
pub fn chart(blocks: &[u16], xs: &[u16], nx: usize, ys: &[u16], ny: usize, steps: &mut [u8])
    requires { (Bounded blocks.now) × (Ruled xs.now nx ys.now ny) × (length steps.old ≡ 4356) }
    ensures { Charted blocks.now (ruled xs.now nx ys.now ny) steps.new 4356 }
{
    let mut near = [0u8; 24];
    mark_near(blocks, &mut near);
    for v in 0..4356 {
        let north = north_clear(blocks, &near, xs, nx, ys, ny, v);
        let east = east_clear(blocks, &near, xs, nx, ys, ny, v);
        steps[v] = u8::from(north) + 2 * u8::from(east);
    }
}

// Where the step west of v leads, by the table; the next three are alike. None stands for 4,356; a table that no chart made may lead past it.
#[tactic(auto, unfolding(crate::specs::inner::Charts::west_of))]
pub fn west(steps: &[u8], v: usize) -> Option<usize>
    requires { (length steps.now ≡ 4356) × (v < 4356) }
    ensures { Target result (west_of steps.now v) }
{
    if 66 <= v && steps[v - 66] / 2 == 1 {
        return Some(v - 66);
    }
    None
}

#[tactic(auto, unfolding(crate::specs::inner::Charts::south_of))]
pub fn south(steps: &[u8], v: usize) -> Option<usize>
    requires { (length steps.now ≡ 4356) × (v < 4356) }
    ensures { Target result (south_of steps.now v) }
{
    if 1 <= v && steps[v - 1] % 2 == 1 {
        return Some(v - 1);
    }
    None
}

#[tactic(auto, unfolding(crate::specs::inner::Charts::north_of))]
pub fn north(steps: &[u8], v: usize) -> Option<usize>
    requires { (length steps.now ≡ 4356) × (v < 4356) }
    ensures { Target result (north_of steps.now v) }
{
    if v < 4355 && steps[v] % 2 == 1 {
        return Some(v + 1);
    }
    None
}

#[tactic(auto, unfolding(crate::specs::inner::Charts::east_of))]
pub fn east(steps: &[u8], v: usize) -> Option<usize>
    requires { (length steps.now ≡ 4356) × (v < 4356) }
    ensures { Target result (east_of steps.now v) }
{
    if v != 4290 && steps[v] / 2 == 1 {
        return Some(v + 66);
    }
    None
}

// Where the step in a direction leads, by the table.
#[tactic(auto, unfolding(crate::specs::inner::Charts::step_of))]
pub fn neighbour(steps: &[u8], d: Direction, v: usize) -> Option<usize>
    requires { (length steps.now ≡ 4356) × (v < 4356) }
    ensures { Target result (step_of steps.now (code d) v) }
{
    match d {
        Direction::West => west(steps, v),
        Direction::South => south(steps, v),
        Direction::North => north(steps, v),
        Direction::East => east(steps, v),
    }
}

// How far two crossings are apart.
pub fn span(xs: &[u16], ys: &[u16], v: usize, u: usize) -> u64
    requires { (length xs.now ≡ 194) × (length ys.now ≡ 194) × (v < 4356) × (u < 4356) }
    ensures value { result ≡ span xs.now ys.now v u }
    ensures small { result ≤ 131070 }
{
    let a = spot(xs, ys, v);
    let b = spot(xs, ys, u);
    apart(a.east, b.east) + apart(a.north, b.north)
}
