// The lines that a duct may use: collected in increasing order, and where a coordinate stands among them.
#![tactic(auto)]

ghost use Rattle.std.specs.Prelude.{◌≡◌, ◌<◌, ◌≤◌, min, max, length, take};
ghost use Rattle.geometry.specs.Words.{point_of};
ghost use Rattle.tables.specs.Tables.{stored, place_of};
ghost use Rattle.lines.specs.Lines.{coordinate, lines, index_of};
ghost use Rattle.lines.specs.inner.Lined.{Rising, Lined, Collected};

use geometry::Place;
use tables::{is_corner, place_of};

// Puts x among the first n of an increasing list, once; answers how many there are then.
fn add_line(list: &mut [u16], n: usize, x: u16) -> usize
    requires { (n < length list.old) × (Rising 0 (take n list.old)) }
    ensures { Lined list.old n x list.new result }
{
    let mut carried = x;
    for j in 0..n {
        let y = list[j];
        if carried == y {
            return n;
        }
        list[j] = carried.min(y);
        carried = carried.max(y);
    }
    list[n] = carried;
    n + 1
}

fn coordinate(p: Place, east: bool) -> u16
    ensures { result ≡ coordinate east (point_of p) }
{
    if east { p.east } else { p.north }
}

// Puts the line through mark i into the list.
fn add_mark(blocks: &[u16], runs: &[u16], i: usize, east: bool, list: &mut [u16], n: usize) -> usize
    requires blocks_len { (length blocks.now ≡ 408) × (length runs.now ≡ 121) × (i < 240) }
    requires n_in_bounds { (n < length list.old) × (Rising 0 (take n list.old)) }
    ensures { Lined list.old n (coordinate east (place_of (stored blocks.now runs.now) i)) list.new result }
{
    let x = coordinate(place_of(blocks, runs, i), east);
    add_line(list, n, x)
}

// Lists the lines of run m in one direction, and answers how many there are.
pub fn lines_of(blocks: &[u16], runs: &[u16], m: usize, east: bool, list: &mut [u16]) -> usize
    requires { (length blocks.now ≡ 408) × (length runs.now ≡ 121) × (m < 24) × (length list.old ≡ 194) }
    ensures { Collected (lines (stored blocks.now runs.now) m east) list.new result }
{
    let mut n = 0;
    for i in 0..192 {
        if is_corner(blocks, i) {
            n = add_mark(blocks, runs, i, east, list, n);
        }
    }
    n = add_mark(blocks, runs, 192 + 2 * m, east, list, n);
    add_mark(blocks, runs, 193 + 2 * m, east, list, n)
}

// Where x stands among the first n of a list that has it.
pub fn index_of(list: &[u16], n: usize, x: u16) -> usize
    requires { n ≤ length list.now }
    ensures { result ≡ index_of x (take n list.now) }
{
    list[..n].iter().position(|y| x == *y).unwrap_or(n)
}
