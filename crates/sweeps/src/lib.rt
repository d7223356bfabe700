// The search for the best path: passes along the lines in four directions, until no key becomes less.
#![tactic(auto)]

ghost use Rattle.std.specs.Prelude.{◌≡◌, cond, ◌+◌, ◌*◌, ◌-◌, ◌<◌, ◌≤◌, min, length};
ghost use Rattle.crossings.specs.Grid.{net};
ghost use Rattle.crossings.specs.inner.Charts.{ruled, Ruled, Charted, axis_by};
ghost use Rattle.crossings.specs.inner.Directions.{code, axis_code};
ghost use Rattle.sweeps.specs.inner.Keys.{key_at, lanes, leave, through, on_line, gap_on, line_key, Fair, Stored, Improved, Passed, Swept, Rounded, Searched, Opened};

use crossings::{Axis, Direction, neighbour};
use lengths::apart;
use lists::fill;

// The key of crossing v.
pub fn key_at(top: &[u16], low: &[u16], v: usize) -> u64
    requires { (length top.now ≡ 4356) × (length low.now ≡ 8712) × (v < 4356) }
    ensures value { result ≡ key_at top.now low.now v }
    ensures small { result < 281474976710656 }
{
    4294967296 * u64::from(top[v]) + 65536 * u64::from(low[2 * v + 1]) + u64::from(low[2 * v])
}

// Writes the key of crossing v.
fn put_key(top: &mut [u16], low: &mut [u16], v: usize, key: u64)
    requires { (length top.old ≡ 4356) × (length low.old ≡ 8712) × (v < 4356) × (key < 281474976710656) }
    ensures { Stored top.old low.old v key top.new low.new }
{
    top[v] = (key / 4294967296) as u16;
    low[2 * v + 1] = (key / 65536 % 65536) as u16;
    low[2 * v] = (key % 65536) as u16;
}

// Makes the key of crossing v the one given where that is less; answers whether it is.
fn improve(top: &mut [u16], low: &mut [u16], v: usize, key: u64) -> bool
    requires { (length top.old ≡ 4356) × (length low.old ≡ 8712) × (v < 4356) }
    ensures { Improved top.old low.old v key top.new low.new (cond result 1 0) }
{
    if key_at(top, low, v) <= key {
        return false;
    }
    put_key(top, low, v, key);
    true
}

// What a change of direction to north or south adds to a key after a step along an axis: 25 × 65,536 + 1.
fn turn_from(axis: Axis) -> u64
    ensures value { result ≡ 1638401 * axis_code axis }
    ensures small { result ≤ 1638401 }
{
    match axis {
        Axis::NorthSouth => 0,
        Axis::EastWest => 1638401,
    }
}

// Crossing k of a line of n: from crossing k + 1 direction d leads to it.
#[tactic(auto, unfolding(crate::specs::inner::Keys::on_line))]
fn on_line(d: Direction, line: usize, n: usize, k: usize) -> usize
    requires { (line < 66) × (n ≤ 66) × (k < n) }
    ensures value { result ≡ on_line (code d) line n k }
    ensures small { result < 4356 }
{
    match d {
        Direction::West => 66 * k + line,
        Direction::South => 66 * line + k,
        Direction::North => 66 * line + (n - 1 - k),
        Direction::East => 66 * (n - 1 - k) + line,
    }
}

// How far crossing k of a line of n lies from crossing k - 1.
#[tactic(auto, unfolding(crate::specs::inner::Keys::gap_on))]
fn gap_on(xs: &[u16], ys: &[u16], d: Direction, n: usize, k: usize) -> u64
    requires { (length xs.now ≡ 194) × (length ys.now ≡ 194) × (n ≤ 66) × (k < n) }
    ensures value { result ≡ gap_on xs.now ys.now (code d) n k }
    ensures small { result ≤ 65535 }
{
    if k == 0 {
        return 0;
    }
    match d {
        Direction::West => apart(xs[k], xs[k - 1]),
        Direction::South => apart(ys[k], ys[k - 1]),
        Direction::North => apart(ys[n - 1 - k], ys[n - k]),
        Direction::East => apart(xs[n - 1 - k], xs[n - k]),
    }
}

// The key of v after a step along an axis, where the path ends or goes on north or south.
#[tactic(auto, unfolding(crate::specs::inner::Keys::leave))]
fn leave(top: &[u16], low: &[u16], end: usize, axis: Axis, v: usize) -> u64
    requires { (length top.now ≡ 4356) × (length low.now ≡ 8712) × (v < 4356) }
    ensures value { result ≡ leave end (key_at top.now low.now) (axis_code axis) v }
    ensures small { result < 300000000000000 }
{
    if v == end {
        return 0;
    }
    key_at(top, low, v) + turn_from(axis)
}

// The key of v by a step of length w in direction d to a crossing of key c, where there is one.
#[tactic(auto, unfolding(crate::specs::inner::Keys::through))]
fn through(steps: &[u8], d: Direction, v: usize, w: u64, c: u64) -> u64
    requires { (length steps.now ≡ 4356) × (v < 4356) × (w ≤ 65535) × (c < 300000000000000) }
    ensures { result ≡ through steps.now (code d) v w c }
{
    match neighbour(steps, d, v) {
        Some(u) if u < 4356 => 65536 * w + c,
        _ => 281470681743360,
    }
}

// The key that is carried on to v, over a gap of w, from the key c of the crossing behind it.
fn carry_on(
    steps: &[u8],
    end: usize,
    top: &[u16],
    low: &[u16],
    d: Direction,
    v: usize,
    w: u64,
    c: u64,
) -> u64
    requires { (length steps.now ≡ 4356) × (length top.now ≡ 4356) × (length low.now ≡ 8712) × (v < 4356) × (w ≤ 65535) × (c < 300000000000000) }
    ensures value { result ≡ min (leave end (key_at top.now low.now) (axis_by (code d)) v) (through steps.now (code d) v w c) }
    ensures small { result < 300000000000000 }
{
    let on = through(steps, d, v, w, c);
    leave(top, low, end, d.axis(), v).min(on)
}

// The key of the m-th crossing of a line after a step along the line, by paths that go on in direction d.
pub fn line_key(
    xs: &[u16],
    ys: &[u16],
    steps: &[u8],
    end: usize,
    top: &[u16],
    low: &[u16],
    d: Direction,
    line: usize,
    n: usize,
    m: usize,
) -> u64
    requires lines { (length xs.now ≡ 194) × (length ys.now ≡ 194) × (length steps.now ≡ 4356) }
    requires keys { (length top.now ≡ 4356) × (length low.now ≡ 8712) × (line < 66) × (n ≤ 66) × (m ≤ n) }
    ensures value { result ≡ line_key (lanes xs.now ys.now steps.now end) (key_at top.now low.now) (code d) line n m }
    ensures small { result < 300000000000000 }
{
    let mut c = 281470681743360;
    for k in 0..m {
        let v = on_line(d, line, n, k);
        c = carry_on(steps, end, top, low, d, v, gap_on(xs, ys, d, n, k), c);
    }
    c
}

// One pass along a line of n crossings; answers how many keys became less.
fn pass(
    blocks: &[u16],
    xs: &[u16],
    nx: usize,
    ys: &[u16],
    ny: usize,
    steps: &[u8],
    end: usize,
    d: Direction,
    line: usize,
    n: usize,
    top: &mut [u16],
    low: &mut [u16],
) -> usize
    requires tables { (Ruled xs.now nx ys.now ny) × (Charted blocks.now (ruled xs.now nx ys.now ny) steps.now 4356) }
    requires keys { (Fair (net blocks.now (ruled xs.now nx ys.now ny)) end top.old low.old) × (line < 66) × (n ≤ 66) }
    ensures { Passed (net blocks.now (ruled xs.now nx ys.now ny)) (lanes xs.now ys.now steps.now end)
        (code d) line n top.old low.old top.new low.new result }
{
    let turn = turn_from(d.axis());
    let mut moved = 0;
    let mut c = 281470681743360;
    for k in 0..n {
        let v = on_line(d, line, n, k);
        c = carry_on(steps, end, top, low, d, v, gap_on(xs, ys, d, n, k), c);
        moved += usize::from(improve(top, low, v, c + turn));
    }
    moved
}

// The passes along m lines in direction d.
fn sweep(
    blocks: &[u16],
    xs: &[u16],
    nx: usize,
    ys: &[u16],
    ny: usize,
    steps: &[u8],
    end: usize,
    d: Direction,
    m: usize,
    n: usize,
    top: &mut [u16],
    low: &mut [u16],
) -> usize
    requires tables { (Ruled xs.now nx ys.now ny) × (Charted blocks.now (ruled xs.now nx ys.now ny) steps.now 4356) }
    requires keys { (Fair (net blocks.now (ruled xs.now nx ys.now ny)) end top.old low.old) × (m ≤ 66) × (n ≤ 66) }
    ensures { Swept (net blocks.now (ruled xs.now nx ys.now ny)) (lanes xs.now ys.now steps.now end)
        (code d) m n top.old low.old top.new low.new result }
{
    let mut moved = 0;
    for line in 0..m {
        moved += pass(blocks, xs, nx, ys, ny, steps, end, d, line, n, top, low);
    }
    moved
}

// All four directions in turn.
fn round(
    blocks: &[u16],
    xs: &[u16],
    nx: usize,
    ys: &[u16],
    ny: usize,
    steps: &[u8],
    end: usize,
    top: &mut [u16],
    low: &mut [u16],
) -> usize
    requires tables { (Ruled xs.now nx ys.now ny) × (Charted blocks.now (ruled xs.now nx ys.now ny) steps.now 4356) }
    requires keys { Fair (net blocks.now (ruled xs.now nx ys.now ny)) end top.old low.old }
    ensures { Rounded (net blocks.now (ruled xs.now nx ys.now ny)) (lanes xs.now ys.now steps.now end)
        nx ny top.old low.old top.new low.new result }
{
    let west = sweep(
        blocks,
        xs,
        nx,
        ys,
        ny,
        steps,
        end,
        Direction::West,
        ny,
        nx,
        top,
        low,
    );
    let east = sweep(
        blocks,
        xs,
        nx,
        ys,
        ny,
        steps,
        end,
        Direction::East,
        ny,
        nx,
        top,
        low,
    );
    let south = sweep(
        blocks,
        xs,
        nx,
        ys,
        ny,
        steps,
        end,
        Direction::South,
        nx,
        ny,
        top,
        low,
    );
    let north = sweep(
        blocks,
        xs,
        nx,
        ys,
        ny,
        steps,
        end,
        Direction::North,
        nx,
        ny,
        top,
        low,
    );
    west + east + south + north
}

// Rounds until no key becomes less.
pub fn search(
    blocks: &[u16],
    xs: &[u16],
    nx: usize,
    ys: &[u16],
    ny: usize,
    steps: &[u8],
    end: usize,
    top: &mut [u16],
    low: &mut [u16],
)
    requires tables { (Ruled xs.now nx ys.now ny) × (Charted blocks.now (ruled xs.now nx ys.now ny) steps.now 4356) }
    requires keys { Fair (net blocks.now (ruled xs.now nx ys.now ny)) end top.old low.old }
    ensures { Searched (net blocks.now (ruled xs.now nx ys.now ny)) (lanes xs.now ys.now steps.now end)
        nx ny top.new low.new }
{
    loop {
        if round(blocks, xs, nx, ys, ny, steps, end, top, low) == 0 {
            return;
        }
    }
}

// The keys before the search: only the end is reached.
pub fn open_keys(end: usize, top: &mut [u16], low: &mut [u16])
    requires { (end < 4356) × (length top.old ≡ 4356) × (length low.old ≡ 8712) }
    ensures { Opened end top.new low.new }
{
    fill(top, 65535);
    fill(low, 0);
    top[end] = 0;
}
