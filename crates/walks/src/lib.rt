// The walk by the labels: the best path between two crossings, its steps kept as directions.
#![tactic(auto)]

ghost use Rattle.std.specs.Prelude.{◌≡◌, ◌+◌, ◌*◌, ◌/◌, ◌%◌, ◌<◌, ◌≤◌, length, map};
ghost use Rattle.geometry.specs.inner.Bounds.{Bounded};
ghost use Rattle.lists.specs.inner.Tells.{Tells};
ghost use Rattle.nets.specs.Net.{turn};
ghost use Rattle.crossings.specs.Grid.{Crossing, net};
ghost use Rattle.crossings.specs.inner.Charts.{ruled, Ruled, Charted, step_of, axis_by};
ghost use Rattle.crossings.specs.inner.Directions.{code, axis_code};
ghost use Rattle.sweeps.specs.inner.Keys.{key_at, lanes, unreached, Searched};
ghost use Rattle.walks.specs.inner.Labels.{before_code, across, label_at, Leading, NextIs, Trailed};
ghost use Rattle.walks.specs.inner.Paths.{Outcoming};

use crossings::{Axis, Direction, chart, neighbour, span, spot};
use sweeps::{key_at, line_key, open_keys, search};
use visibility::is_clear_place;

// The key of a crossing that is not reached.
const UNREACHED: u64 = 281470681743360;

// The least key of v after a step east or west.
fn across(
    xs: &[u16],
    nx: usize,
    ys: &[u16],
    steps: &[u8],
    end: usize,
    top: &[u16],
    low: &[u16],
    v: usize,
) -> u64
    requires lines { (length xs.now ≡ 194) × (length ys.now ≡ 194) × (length steps.now ≡ 4356) }
    requires keys { (length top.now ≡ 4356) × (length low.now ≡ 8712) × (v / 66 < nx) × (nx ≤ 66) }
    ensures value { result ≡ across (lanes xs.now ys.now steps.now end) nx (key_at top.now low.now) v }
    ensures small { result < 300000000000000 }
{
    let west = line_key(
        xs,
        ys,
        steps,
        end,
        top,
        low,
        Direction::West,
        v % 66,
        nx,
        v / 66 + 1,
    );
    let east = line_key(
        xs,
        ys,
        steps,
        end,
        top,
        low,
        Direction::East,
        v % 66,
        nx,
        nx - v / 66,
    );
    west.min(east)
}

// The label of v after a step along an axis, or where no step was taken before.
#[tactic(auto, unfolding(crate::specs::inner::Labels::label_at))]
fn label(
    xs: &[u16],
    nx: usize,
    ys: &[u16],
    steps: &[u8],
    end: usize,
    top: &[u16],
    low: &[u16],
    before: Option<Axis>,
    v: usize,
) -> u64
    requires lines { (length xs.now ≡ 194) × (length ys.now ≡ 194) × (length steps.now ≡ 4356) }
    requires keys { (length top.now ≡ 4356) × (length low.now ≡ 8712) × (v < 4356) × (v / 66 < nx) × (nx ≤ 66) }
    ensures value { result ≡ label_at (lanes xs.now ys.now steps.now end) nx (key_at top.now low.now) (before_code before) v }
    ensures small { result < 300000000000000 }
{
    match before {
        Some(Axis::NorthSouth) => key_at(top, low, v),
        Some(Axis::EastWest) => across(xs, nx, ys, steps, end, top, low, v),
        None => key_at(top, low, v).min(across(xs, nx, ys, steps, end, top, low, v)),
    }
}

// What a step along an axis adds to a key for a change of direction.
#[tactic(auto, unfolding(nets::specs::Net::turn))]
fn turn_key(before: Option<Axis>, axis: Axis) -> u64
    ensures value { result ≡ 1638401 * turn (before_code before) (axis_code axis) }
    ensures small { result ≤ 1638401 }
{
    match (before, axis) {
        (Some(Axis::NorthSouth), Axis::EastWest) => 1638401,
        (Some(Axis::EastWest), Axis::NorthSouth) => 1638401,
        _ => 0,
    }
}

// Whether the step in direction d, after one along an axis, makes the label of v.
fn leads(
    blocks: &[u16],
    xs: &[u16],
    nx: usize,
    ys: &[u16],
    ny: usize,
    steps: &[u8],
    end: usize,
    top: &[u16],
    low: &[u16],
    v: usize,
    d: Direction,
    before: Option<Axis>,
    key: u64,
) -> bool
    requires tables { (Ruled xs.now nx ys.now ny) × (Charted blocks.now (ruled xs.now nx ys.now ny) steps.now 4356) }
    requires keys { (length top.now ≡ 4356) × (length low.now ≡ 8712) × (v < 4356) }
    ensures { Tells (Leading (lanes xs.now ys.now steps.now end)
        (label_at (lanes xs.now ys.now steps.now end) nx (key_at top.now low.now))
        v (step_of steps.now (code d) v) (axis_by (code d)) (before_code before) key) result }
{
    match neighbour(steps, d, v) {
        Some(u) if u < 4356 => {
            let axis = d.axis();
            let on = label(xs, nx, ys, steps, end, top, low, Some(axis), u);
            key == 65536 * span(xs, ys, v, u) + on + turn_key(before, axis)
        }
        _ => false,
    }
}

// The direction of the lowest crossing after v, which a step along an axis led to, by the labels.
fn next_direction(
    blocks: &[u16],
    xs: &[u16],
    nx: usize,
    ys: &[u16],
    ny: usize,
    steps: &[u8],
    end: usize,
    top: &[u16],
    low: &[u16],
    v: usize,
    before: Option<Axis>,
    key: u64,
) -> Direction
    requires tables { (Ruled xs.now nx ys.now ny) × (Charted blocks.now (ruled xs.now nx ys.now ny) steps.now 4356) }
    requires keys { Searched (net blocks.now (ruled xs.now nx ys.now ny)) (lanes xs.now ys.now steps.now end) nx ny top.now low.now }
    requires place { (Crossing (ruled xs.now nx ys.now ny) end) × (v / 66 < nx) × (v % 66 < ny) × (v ≡ end → ⊥) }
    requires key { (key ≡ label_at (lanes xs.now ys.now steps.now end) nx (key_at top.now low.now) (before_code before) v) × (key < unreached) }
    ensures { NextIs (net blocks.now (ruled xs.now nx ys.now ny)) (lanes xs.now ys.now steps.now end)
        (label_at (lanes xs.now ys.now steps.now end) nx (key_at top.now low.now)) (before_code before) v (code result) }
{
    for d in [Direction::West, Direction::South, Direction::North] {
        if leads(
            blocks, xs, nx, ys, ny, steps, end, top, low, v, d, before, key,
        ) {
            return d;
        }
    }
    Direction::East
}

// Keeps the steps of the best path, and answers how many crossings it has.
fn walk(
    blocks: &[u16],
    xs: &[u16],
    nx: usize,
    ys: &[u16],
    ny: usize,
    steps: &[u8],
    end: usize,
    top: &[u16],
    low: &[u16],
    start: usize,
    trail: &mut [Direction],
) -> usize
    requires tables { (Ruled xs.now nx ys.now ny) × (Charted blocks.now (ruled xs.now nx ys.now ny) steps.now 4356) }
    requires keys { Searched (net blocks.now (ruled xs.now nx ys.now ny)) (lanes xs.now ys.now steps.now end) nx ny top.now low.now }
    requires ends { (Crossing (ruled xs.now nx ys.now ny) start) × (Crossing (ruled xs.now nx ys.now ny) end) × (length trail.old ≡ 4356) }
    requires way { label_at (lanes xs.now ys.now steps.now end) nx (key_at top.now low.now) 2 start < unreached }
    ensures { Trailed (net blocks.now (ruled xs.now nx ys.now ny)) start end
        (label_at (lanes xs.now ys.now steps.now end) nx (key_at top.now low.now) 2 start) (map code trail.new) result }
{
    let mut v = start;
    let mut before = None;
    let mut key = label(xs, nx, ys, steps, end, top, low, before, v);
    let mut n = 1;
    while v != end {
        let d = next_direction(blocks, xs, nx, ys, ny, steps, end, top, low, v, before, key);
        trail[n - 1] = d;
        before = Some(d.axis());
        v = neighbour(steps, d, v).unwrap();
        key = label(xs, nx, ys, steps, end, top, low, before, v);
        n += 1;
    }
    n
}

// The best path: how many crossings it has, and its cost.
#[derive(Clone, Copy, Debug, PartialEq, Eq)]
pub struct Found {
    pub count: usize,
    pub cost: u32,
}

// Finds the best path between two crossings, and keeps its steps in the trail; the list of keys is scratch.
pub fn find_path(
    blocks: &[u16],
    xs: &[u16],
    nx: usize,
    ys: &[u16],
    ny: usize,
    start: usize,
    end: usize,
    keys: &mut [u16],
    trail: &mut [Direction],
) -> Option<Found>
    requires lines { (Bounded blocks.now) × (Ruled xs.now nx ys.now ny) }
    requires ends { (Crossing (ruled xs.now nx ys.now ny) start) × (Crossing (ruled xs.now nx ys.now ny) end) }
    requires lists { (length keys.old ≡ 8712) × (length trail.old ≡ 4356) }
    ensures { Outcoming (net blocks.now (ruled xs.now nx ys.now ny)) start end (map code trail.new) (length keys.new) result }
{
    let p = spot(xs, ys, end);
    if !is_clear_place(blocks, p) {
        return None;
    }
    let mut steps = [0u8; 4356];
    chart(blocks, xs, nx, ys, ny, &mut steps);
    let mut top = [0u16; 4356];
    open_keys(end, &mut top, keys);
    search(blocks, xs, nx, ys, ny, &steps, end, &mut top, keys);
    let key = label(xs, nx, ys, &steps, end, &top, keys, None, start);
    if UNREACHED <= key {
        return None;
    }
    let count = walk(
        blocks, xs, nx, ys, ny, &steps, end, &top, keys, start, trail,
    );
    let cost = (key / 65536) as u32;
    Some(Found { count, cost })
}
