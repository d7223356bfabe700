// Which blocks have a side in line with a mark, and which the mark belongs to: a straight from there can touch them without going through them.
#![tactic(auto)]

ghost use Rattle.std.specs.Prelude.{◌≡◌, ◌+◌, ◌<◌, length};
ghost use Rattle.geometry.specs.Words.{word};
ghost use Rattle.geometry.specs.inner.Bounds.{BoundedRecord, Bounded};
ghost use Rattle.code_table.specs.inner.Lines.{Marks};
ghost use Rattle.alignments.specs.inner.Lined.{Marked, Blank, SidesRow, PackedBoth, PackedTo, LinesOf};

use bits::packed;
use code_table::{Places, line_of};

// A mark's byte after one side more: bit 0 says that it is on the line of a side, bit 1 that it is strictly right of one.
fn marked(old: u8, on: bool, right: bool) -> u8
    ensures { Marked old on right result }
{
    old | u8::from(on) | 2 * u8::from(right)
}

// The marks on the line of side k of a block record and those strictly right of it are marked.
fn mark_side(words: &[u16], k: usize, places: &Places, row: &mut [u8])
    requires record { (BoundedRecord words.now) × (k < word words.now 0) }
    requires marks { (Marks places.now.east places.now.north) × (SidesRow words.now places.now.east places.now.north (k + 1) row.old) }
    ensures { SidesRow words.now places.now.east places.now.north k row.new }
{
    let line = line_of(words, k);
    for i in 0..240 {
        let p = places.at(i);
        let on = line.is_on(p);
        let right = line.is_right(p);
        row[i] = marked(row[i], on, right);
    }
}

// And those of any side.
fn mark_sides(words: &[u16], places: &Places, row: &mut [u8])
    requires { (BoundedRecord words.now) × (Marks places.now.east places.now.north) × (Blank row.old) }
    ensures { SidesRow words.now places.now.east places.now.north 0 row.new }
{
    for k in (0..usize::from(words[0])).rev() {
        mark_side(words, k, places, row);
    }
}

// A mark's word with bit n set where the mark is on a line of block n, and bit n + 24 where it belongs to the block: it is on the
// line of a side and strictly right of none.
fn packed_both(c: u64, n: u32, b: u8) -> u64
    requires { n < 24 }
    ensures { PackedBoth c n b result }
{
    packed(packed(c, n, b % 2), n + 24, u8::from(b == 1))
}

// The same of each mark.
fn pack_row(row: &[u8], n: u32, lines: &mut [u64])
    requires { (length row.now ≡ 240) × (n < 24) × (length lines.old ≡ 240) }
    ensures { PackedTo row.now n lines.old lines.new 240 }
{
    for i in 0..240 {
        lines[i] = packed_both(lines[i], n, row[i]);
    }
}

// The lines of block n, where it is near another.
fn add_lines(blocks: &[u16], n: usize, places: &Places, masks: &[u64], lines: &mut [u64])
    requires blocks { (Bounded blocks.now) × (n < 24) × (Marks places.now.east places.now.north) }
    requires lists { (length masks.now ≡ 24) × (LinesOf blocks.now places.now.east places.now.north masks.now lines.old n) }
    ensures { LinesOf blocks.now places.now.east places.now.north masks.now lines.new (n + 1) }
{
    if masks[n] == 0 {
        return;
    }
    let mut row = [0u8; 240];
    mark_sides(&blocks[17 * n..17 * n + 17], places, &mut row);
    pack_row(&row, n as u32, lines);
}

// For each mark, the blocks near another that have a side in line with it, and those that it belongs to.
pub fn fill_lines(blocks: &[u16], places: &Places, masks: &[u64], lines: &mut [u64])
    requires { (Bounded blocks.now) × (Marks places.now.east places.now.north) × (length masks.now ≡ 24) × (length lines.old ≡ 240) }
    ensures { LinesOf blocks.now places.now.east places.now.north masks.now lines.new 24 }
{
    for n in 0..24 {
        add_lines(blocks, n, places, masks, lines);
    }
}
