// The codes of all marks against all blocks, side after side for all marks at once.
#![tactic(auto)]

ghost use Rattle.std.specs.Prelude.{◌≡◌, cond, ◌+◌, ◌*◌, ◌%◌, ◌<◌, ◌≤◌, pos, ◌-ℤ◌, ◌*ℤ◌, length};
ghost use Rattle.std.specs.Int.Signed.{lt_z};
ghost use Rattle.lists.specs.inner.Tells.{Tells};
ghost use Rattle.geometry.specs.Words.{point_of, word, corners};
ghost use Rattle.geometry.specs.inner.Bounds.{BoundedRecord, InRange};
ghost use Rattle.geometry.specs.inner.Sides.{Within};
ghost use Rattle.tables.specs.Tables.{stored};
ghost use Rattle.tables.specs.inner.Fit.{Fit};
ghost use Rattle.codes.specs.inner.Codes.{CodesOf};
ghost use Rattle.code_table.specs.inner.Lines.{LineOf, Slopes, Marks, mark_at, RowFrom, RowIs, PlacesOf};

use geometry::{Place, corner, next};
use lists::fill;
use tables::place_of;

// The line of a side: how far it goes east and north, and what `across` gives on it.
#[derive(Clone, Copy)]
pub struct Line {
    pub east: i32,
    pub north: i32,
    pub level: i32,
}

// The places of all marks.
#[derive(Drop)]
pub struct Places {
    pub east: [u16; 240],
    pub north: [u16; 240],
}

fn difference(a: u16, b: u16) -> i32
    requires { (a ≤ 32767) × (b ≤ 32767) }
    ensures value { result ≡ pos a -ℤ pos b }
    ensures small { Within 32767 result }
{
    i32::from(a) - i32::from(b)
}

fn times(a: i32, b: u16) -> i32
    requires { (Within 32767 a) × (b ≤ 32767) }
    ensures value { result ≡ a *ℤ pos b }
    ensures small { Within 1073676289 result }
{
    a * i32::from(b)
}

// How far a place lies across a direction, left of it the more.
pub fn across(east: i32, north: i32, p: Place) -> i32
    requires { (Within 32767 east) × (Within 32767 north) × (InRange (point_of p)) }
    ensures { result ≡ east *ℤ pos p.north -ℤ north *ℤ pos p.east }
{
    times(east, p.north) - times(north, p.east)
}

impl Line {
    // Whether a place is strictly left of the line.
    pub fn is_left(self, p: Place) -> bool
        requires { (Slopes self.east self.north) × (InRange (point_of p)) }
        ensures { result ≡ lt_z self.level (self.east *ℤ pos p.north -ℤ self.north *ℤ pos p.east) }
    {
        self.level < across(self.east, self.north, p)
    }

    // Whether it is on the line.
    pub fn is_on(self, p: Place) -> bool
        requires { (Slopes self.east self.north) × (InRange (point_of p)) }
        ensures { Tells (self.level ≡ self.east *ℤ pos p.north -ℤ self.north *ℤ pos p.east) result }
    {
        self.level == across(self.east, self.north, p)
    }

    // Whether it is strictly right of the line.
    pub fn is_right(self, p: Place) -> bool
        requires { (Slopes self.east self.north) × (InRange (point_of p)) }
        ensures { result ≡ lt_z (self.east *ℤ pos p.north -ℤ self.north *ℤ pos p.east) self.level }
    {
        across(self.east, self.north, p) < self.level
    }
}

impl Places {
    // The place of mark i.
    pub fn at(&self, i: usize) -> Place
        requires { i < 240 }
        ensures { point_of result ≡ mark_at self.now.east self.now.north i }
    {
        Place {
            east: self.east[i],
            north: self.north[i],
        }
    }
}

// The line of side k of a block record.
pub fn line_of(words: &[u16], k: usize) -> Line
    requires { (BoundedRecord words.now) × (k < word words.now 0) }
    ensures { LineOf (corners words.now) k result.east result.north result.level }
{
    let m = usize::from(words[0]);
    let p = corner(words, k);
    let q = corner(words, next(k, m));
    let east = difference(q.east, p.east);
    let north = difference(q.north, p.north);
    Line {
        east,
        north,
        level: across(east, north, p),
    }
}

// The code of a place against the last side alone, which every bit repeats.
fn filled(left: bool) -> u8
    ensures { result ≡ cond left 0 255 }
{
    if left { 0 } else { 255 }
}

// The code of a place with one side more in front: the lowest bit says that the place is not strictly left of that side.
fn shifted(c: u8, left: bool) -> u8
    ensures { result ≡ cond left 0 1 + 2 * (c % 128) }
{
    (c << 1) + u8::from(!left)
}

// The codes of all marks from the last side of a block record on.
fn last_row(words: &[u16], k: usize, places: &Places, row: &mut [u8])
    requires record { (BoundedRecord words.now) × (word words.now 0 ≡ k + 1) }
    requires marks { (Marks places.now.east places.now.north) × (length row.old ≡ 240) }
    ensures { RowFrom words.now places.now.east places.now.north k row.new }
{
    let line = line_of(words, k);
    for i in 0..240 {
        row[i] = filled(line.is_left(places.at(i)));
    }
}

// The same from side k on, where they are known from the next side on.
fn side_row(words: &[u16], k: usize, places: &Places, row: &mut [u8])
    requires record { (BoundedRecord words.now) × (k + 1 < word words.now 0) }
    requires marks { (Marks places.now.east places.now.north) × (RowFrom words.now places.now.east places.now.north (k + 1) row.old) }
    ensures { RowFrom words.now places.now.east places.now.north k row.new }
{
    let line = line_of(words, k);
    for i in 0..240 {
        row[i] = shifted(row[i], line.is_left(places.at(i)));
    }
}

// The codes of all marks against a block record.
pub fn block_row(words: &[u16], places: &Places, row: &mut [u8])
    requires { (BoundedRecord words.now) × (Marks places.now.east places.now.north) × (length row.old ≡ 240) }
    ensures { RowIs words.now places.now.east places.now.north row.new }
{
    let m = usize::from(words[0]);
    if m == 0 {
        fill(row, 255);
        return;
    }
    last_row(words, m - 1, places, row);
    for k in (0..m - 1).rev() {
        side_row(words, k, places, row);
    }
}

// The places of all marks.
pub fn fill_marks(blocks: &[u16], runs: &[u16], places: &mut Places)
    requires { Fit (stored blocks.now runs.now) }
    ensures { PlacesOf (stored blocks.now runs.now) places.new.east places.new.north }
{
    for i in 0..240 {
        let p = place_of(blocks, runs, i);
        places.east[i] = p.east;
        places.north[i] = p.north;
    }
}

// The codes of all marks against all blocks.
pub fn fill_codes(blocks: &[u16], runs: &[u16], places: &Places, codes: &mut [u8])
    requires { (Fit (stored blocks.now runs.now)) × (PlacesOf (stored blocks.now runs.now) places.now.east places.now.north) × (length codes.old ≡ 5760) }
    ensures { CodesOf (stored blocks.now runs.now) codes.new }
{
    for n in 0..24 {
        let words = &blocks[17 * n..17 * n + 17];
        block_row(words, places, &mut codes[240 * n..240 * n + 240]);
    }
}
