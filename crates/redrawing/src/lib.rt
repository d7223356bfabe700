// The pair table: its redrawing after an edit, and the check of every byte.
#![tactic(auto)]

ghost use Rattle.std.specs.Prelude.{◌≡◌, ◌+◌, ◌*◌, ◌<◌, length};
ghost use Rattle.lists.specs.inner.Tells.{Tells};
ghost use Rattle.seams.specs.inner.Near.{Near};
ghost use Rattle.tables.specs.Tables.{stored};
ghost use Rattle.tables.specs.inner.Fit.{Fit};
ghost use Rattle.codes.specs.inner.Codes.{Upright};
ghost use Rattle.block_bytes.specs.inner.Aids.{records_of, AidsRight};
ghost use Rattle.visibility.specs.Visibility.{PairsRight, BlockRedrawn, RunRedrawn};
ghost use Rattle.redrawing.specs.inner.Rows.{RowRedrawn, InRow, InColumn, Renewed, RowRight};

use alignments::fill_lines;
use block_bytes::Aids;
use code_table::{Places, fill_codes, fill_marks};
use neighbours::mark_near;
use seam_search::{all_apart, mark_masks};
use tables::pair_index;
use visibility::fresh_byte;

// The bytes of mark j with the marks below it, after an edit of block n.
fn redraw_row(aids: &Aids, row: &mut [u8], j: usize, n: usize)
    requires { (AidsRight aids.now) × (length row.old ≡ j) × (j < 240) × (n < 24) }
    ensures { RowRedrawn (records_of aids.now) n j row.old row.new }
{
    let b = aids.mark(j);
    for (i, byte) in row.iter_mut().enumerate() {
        *byte = aids.block_byte(n, i, j, b, *byte);
    }
}

// Row after row.
fn redraw_rows(aids: &Aids, pairs: &mut [u8], n: usize)
    requires { (AidsRight aids.now) × (length pairs.old ≡ 28680) × (n < 24) }
    ensures { BlockRedrawn (records_of aids.now) n pairs.old pairs.new }
{
    let mut start = 0;
    for j in 0..240 {
        redraw_row(aids, &mut pairs[start..start + j], j, n);
        start += j;
    }
}

// The pairs after an edit of block n, in place.
#[inline(never)]
pub fn redraw_block(blocks: &[u16], runs: &[u16], pairs: &mut [u8], n: usize)
    requires { (Upright (stored blocks.now runs.now)) × (length pairs.old ≡ 28680) × (n < 24) }
    ensures { BlockRedrawn (stored blocks.now runs.now) n pairs.old pairs.new }
{
    let mut masks = [0u64; 24];
    mark_masks(blocks, &mut masks);
    let alone = all_apart(blocks, &masks);
    let mut places = Places {
        east: [0; 240],
        north: [0; 240],
    };
    fill_marks(blocks, runs, &mut places);
    let mut lines = [0u64; 240];
    fill_lines(blocks, &places, &masks, &mut lines);
    let mut codes = [0u8; 5760];
    fill_codes(blocks, runs, &places, &mut codes);
    let aids = Aids {
        blocks,
        runs,
        codes: &codes,
        masks: &masks,
        lines: &lines,
        alone,
    };
    redraw_rows(&aids, pairs, n);
}

// The pairs of mark k with the marks below it, worked out afresh.
fn renew_row(blocks: &[u16], runs: &[u16], near: &[u8], pairs: &mut [u8], k: usize)
    requires { (Fit (stored blocks.now runs.now)) × (Near blocks.now near.now) × (length pairs.old ≡ 28680) × (k < 240) }
    ensures { Renewed (stored blocks.now runs.now) (InRow k k) pairs.old pairs.new }
{
    for i in 0..k {
        pairs[pair_index(i, k)] = fresh_byte(blocks, runs, near, i, k);
    }
}

// The pairs of mark k with the marks above it, worked out afresh.
fn renew_column(blocks: &[u16], runs: &[u16], near: &[u8], pairs: &mut [u8], k: usize)
    requires { (Fit (stored blocks.now runs.now)) × (Near blocks.now near.now) × (length pairs.old ≡ 28680) × (k < 240) }
    ensures { Renewed (stored blocks.now runs.now) (InColumn k 240) pairs.old pairs.new }
{
    for j in k + 1..240 {
        pairs[pair_index(k, j)] = fresh_byte(blocks, runs, near, k, j);
    }
}

// The pairs after an edit of run m, in place.
pub fn redraw_run(blocks: &[u16], runs: &[u16], pairs: &mut [u8], m: usize)
    requires { (Fit (stored blocks.now runs.now)) × (length pairs.old ≡ 28680) × (m < 24) }
    ensures { RunRedrawn (stored blocks.now runs.now) m pairs.old pairs.new }
{
    let mut near = [0u8; 24];
    mark_near(blocks, &mut near);
    let first = 192 + 2 * m;
    let second = 193 + 2 * m;
    renew_row(blocks, runs, &near, pairs, first);
    renew_row(blocks, runs, &near, pairs, second);
    renew_column(blocks, runs, &near, pairs, first);
    renew_column(blocks, runs, &near, pairs, second);
}

// Whether every byte of row j is what the records require.
fn row_right(blocks: &[u16], runs: &[u16], near: &[u8], pairs: &[u8], j: usize) -> bool
    requires { (Fit (stored blocks.now runs.now)) × (Near blocks.now near.now) × (length pairs.now ≡ 28680) × (j < 240) }
    ensures { Tells (RowRight (stored blocks.now runs.now) pairs.now j j) result }
{
    for i in 0..j {
        let due = fresh_byte(blocks, runs, near, i, j);
        if pairs[pair_index(i, j)] != due {
            return false;
        }
    }
    true
}

// Whether every byte of the pair table is what the records require.
pub fn pairs_right(blocks: &[u16], runs: &[u16], pairs: &[u8]) -> bool
    requires { (Fit (stored blocks.now runs.now)) × (length pairs.now ≡ 28680) }
    ensures { Tells (PairsRight (stored blocks.now runs.now) pairs.now) result }
{
    let mut near = [0u8; 24];
    mark_near(blocks, &mut near);
    for j in 0..240 {
        if !row_right(blocks, runs, &near, pairs, j) {
            return false;
        }
    }
    true
}
