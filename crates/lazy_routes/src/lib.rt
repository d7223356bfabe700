// A run's route from the records alone: the keys of a lazy search, and a walk forwards by them.
#![tactic(auto)]

ghost use Rattle.std.specs.Prelude.{◌≡◌, ◌+◌, ◌*◌, ◌<◌, ◌≤◌, length};
ghost use Rattle.lists.specs.inner.Filled.{filled};
ghost use Rattle.lists.specs.inner.Tells.{Tells};
ghost use Rattle.geometry.specs.Words.{point_of};
ghost use Rattle.seams.specs.inner.Near.{Near};
ghost use Rattle.tables.specs.Tables.{stored, place_of, first_end, second_end};
ghost use Rattle.visibility.specs.Visibility.{ByPlaces};
ghost use Rattle.search.specs.inner.Keys.{Keyed};
ghost use Rattle.routing.specs.Routes.{RouteIs};
ghost use Rattle.routing.specs.inner.Walking.{TightKey, Hop, Walked};
ghost use Rattle.sight.specs.inner.Sight.{Sound};
ghost use Rattle.lazy_search.specs.inner.Lazy.{straights};
ghost use Rattle.lazy_routes.specs.inner.Corners.{CornersListed};

use geometry::Place;
use neighbours::mark_near;
use tables::place_of;

// Lists the corners of the present blocks, lowest first, and answers how many there are.
fn list_corners(blocks: &[u16], order: &mut [u16]) -> usize
    requires { (length blocks.now ≡ 408) × (length order.old ≡ 194) }
    ensures { CornersListed blocks.now order.new result }
{
    let mut n = 0;
    for i in 0..192 {
        if tables::is_corner(blocks, i) {
            order[n] = i as u16;
            n += 1;
        }
    }
    n
}

// Whether the straight from v at a to u is clear and adds what their keys differ by. Only a straight that adds so much is tested.
fn tight(
    blocks: &[u16],
    runs: &[u16],
    near: &[u8],
    last: &mut [u8],
    v: usize,
    a: Place,
    u: usize,
    kv: u32,
    ku: u32,
) -> bool
    requires sound { (Sound (stored blocks.now runs.now)) × (Near blocks.now near.now) × (length last.old ≡ 240) × (point_of a ≡ place_of (stored blocks.now runs.now) v) }
    requires v_bound { (v < 240) × (u < 240) × (v ≡ u → kv ≡ ku) }
    ensures tells { Tells (TightKey (straights (stored blocks.now runs.now)) v u kv ku) result }
    ensures sized { length last.new ≡ 240 }
{
    if ku >= kv {
        return false;
    }
    let more = kv - ku;
    if more % 256 != 1 {
        return false;
    }
    let cost = u64::from(more / 256);
    let b = place_of(blocks, runs, u);
    let square = lengths::squared(a, b);
    let figure = tables::figure_of(runs);
    lengths::is_charge(figure, square, cost) && sight::sees(blocks, runs, near, last, v, a, u, b)
}

// The lowest mark after v by the keys.
fn next_hop(
    blocks: &[u16],
    runs: &[u16],
    near: &[u8],
    last: &mut [u8],
    key: &[u32],
    v: usize,
    second: usize,
) -> usize
    requires sound { (Sound (stored blocks.now runs.now)) × (Near blocks.now near.now) × (length last.old ≡ 240) }
    requires v_bound { (v < 240) × (192 ≤ second) × (length key.now ≡ 240) }
    ensures hop { Hop (straights (stored blocks.now runs.now)) second key.now v result }
    ensures sized { length last.new ≡ 240 }
{
    let a = place_of(blocks, runs, v);
    let kv = key[v];
    for u in 0..192 {
        if tight(blocks, runs, near, last, v, a, u, kv, key[u]) {
            return u;
        }
    }
    second
}

// Writes the marks of run m's route into its cleared record, and answers how many there are.
fn walk(blocks: &[u16], runs: &[u16], near: &[u8], m: usize, key: &[u32], part: &mut [u32]) -> usize
    requires sound { (Sound (stored blocks.now runs.now)) × (Near blocks.now near.now) }
    requires m_bound { (m < 24) × (Keyed (straights (stored blocks.now runs.now)) (first_end m) (second_end m) key.now) × (part.old ≡ filled 197 0) }
    ensures { Walked (straights (stored blocks.now runs.now)) (first_end m) (second_end m) key.now part.new result }
{
    let second = 193 + 2 * m;
    let mut last = [255u8; 240];
    let mut v = 192 + 2 * m;
    let mut n = 1;
    part[3] = v as u32;
    loop {
        let u = next_hop(blocks, runs, near, &mut last, key, v, second);
        part[n + 3] = u as u32;
        n += 1;
        if u == second {
            return n;
        }
        v = u;
    }
}

// Run m's route record, as the stored records require it, written into 197 words.
pub fn route(blocks: &[u16], runs: &[u16], m: usize, part: &mut [u32])
    requires { (Sound (stored blocks.now runs.now)) × (m < 24) × (length part.old ≡ 197) }
    ensures { RouteIs (stored blocks.now runs.now) (ByPlaces (stored blocks.now runs.now)) m part.new }
{
    lists::fill(part, 0);
    if runs[5 * m] == 0 {
        return;
    }
    let mut order = [0u16; 194];
    let n = list_corners(blocks, &mut order);
    order[n] = (192 + 2 * m) as u16;
    order[n + 1] = (193 + 2 * m) as u16;
    let mut near = [0u8; 24];
    mark_near(blocks, &mut near);
    let mut key = [4000000000u32; 240];
    if lazy_search::settle(blocks, runs, &near, &mut order, n, m, &mut key) {
        let count = walk(blocks, runs, &near, m, &key, part);
        part[0] = 1;
        part[1] = key[192 + 2 * m] / 256;
        part[2] = count as u32;
    } else {
        part[0] = 2;
    }
}
