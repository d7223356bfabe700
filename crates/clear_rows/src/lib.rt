// Which corners each mark has a clear straight to, as bits, from the records alone: of the corners below a mark, block after block takes away
// those to which it hides the straight.
#![tactic(auto)]

ghost use Rattle.std.specs.Prelude.{◌≡◌, ◌<◌, length};
ghost use Rattle.geometry.specs.inner.Bounds.{Bounded};
ghost use Rattle.seam_search.specs.inner.Masks.{Masks};
ghost use Rattle.tables.specs.Tables.{stored};
ghost use Rattle.codes.specs.inner.Codes.{RightRecord, Upright};
ghost use Rattle.code_table.specs.inner.Lines.{Marks, PlacesOf};
ghost use Rattle.visibility.specs.Visibility.{ByPlaces};
ghost use Rattle.mark_rows.specs.inner.Adjacent.{Rows};
ghost use Rattle.corner_words.specs.inner.Corners.{CornersOf, Lefts};
ghost use Rattle.clear_rows.specs.inner.Sparing.{Spared, Seen, WordFor, AllSay, Kept, Sifts, Changed, HidBy, InTwo, Against, WithoutIf};

use bits::{lowest, without_bit, without_lowest};
use code_table::Places;
use codes::Meeting;

// The row of a mark before any block is passed: the corners below it, if the mark is there.
fn first_word(blocks: &[u16], runs: &[u16], corners: &[u64], k: usize) -> u64
    requires { (Upright (stored blocks.now runs.now)) × (CornersOf blocks.now corners.now 3) × (k < 720) }
    ensures { WordFor (Spared (stored blocks.now runs.now) 0) k result }
{
    if !tables::is_present(blocks, runs, k / 3) {
        return 0;
    }
    corner_words::lower_corners(blocks, corners, k / 3, k % 3)
}

// The rows of all marks before any block is passed.
fn begin(blocks: &[u16], runs: &[u16], corners: &[u64], rows: &mut [u64])
    requires { (Upright (stored blocks.now runs.now)) × (CornersOf blocks.now corners.now 3) × (length rows.old ≡ 720) }
    ensures { AllSay (Spared (stored blocks.now runs.now) 0) rows.new }
{
    for (k, word) in rows.iter_mut().enumerate() {
        *word = first_word(blocks, runs, corners, k);
    }
}

// The word without bit b, if t.
fn without_if(c: u64, b: u32, t: bool) -> u64
    requires { b < 64 }
    ensures { WithoutIf c b t result }
{
    if t { without_bit(c, b) } else { c }
}

// The corners of w, for mark v, to which a block does not hide the straight. Each straight is looked along from v, whose code serves them all.
fn spared_word(
    words: &[u16],
    codes: &[u8],
    lefts: &[u64],
    places: &Places,
    v: usize,
    q: usize,
    w: u64,
) -> u64
    requires { (Against words.now places.now.east places.now.north codes.now) × (Lefts codes.now lefts.now 24) × (v < 240) × (q < 3) }
    ensures { Kept (HidBy words.now places.now.east places.now.north v) q w result }
{
    if w == 0 {
        return 0;
    }
    let c = codes[v];
    let b = places.at(v);
    let mut r = w;
    let mut rest = corner_words::open_word(lefts, c, q, w);
    while 0 < rest {
        let i = lowest(rest);
        let u = 64 * q + i as usize;
        let a = places.at(u);
        let met = codes::meets(words, c, codes[u], b, a);
        r = without_if(r, i, met == Meeting::Hides);
        rest = without_lowest(rest);
    }
    r
}

// Passes a block whose codes are known.
fn pass_coded(words: &[u16], codes: &[u8], lefts: &[u64], places: &Places, rows: &mut [u64])
    requires { (Against words.now places.now.east places.now.north codes.now) × (Lefts codes.now lefts.now 24) × (length rows.old ≡ 720) }
    ensures { Changed (Sifts (HidBy words.now places.now.east places.now.north)) rows.old rows.new 720 }
{
    for (k, word) in rows.iter_mut().enumerate() {
        *word = spared_word(words, codes, lefts, places, k / 3, k % 3, *word);
    }
}

// Passes a block.
fn pass_block(words: &[u16], places: &Places, rows: &mut [u64])
    requires { (RightRecord words.now) × (Marks places.now.east places.now.north) × (length rows.old ≡ 720) }
    ensures { Changed (Sifts (HidBy words.now places.now.east places.now.north)) rows.old rows.new 720 }
{
    if words[0] == 0 {
        return;
    }
    let mut codes = [0u8; 240];
    code_table::block_row(words, places, &mut codes);
    let mut lefts = [0u64; 24];
    corner_words::mark_lefts(&codes, &mut lefts);
    pass_coded(words, &codes, &lefts, places, rows);
}

// Passes every block.
fn pass_blocks(blocks: &[u16], runs: &[u16], places: &Places, rows: &mut [u64])
    requires { (Upright (stored blocks.now runs.now)) × (PlacesOf (stored blocks.now runs.now) places.now.east places.now.north) × (AllSay (Spared (stored blocks.now runs.now) 0) rows.old) }
    ensures { AllSay (Spared (stored blocks.now runs.now) 24) rows.new }
{
    for n in 0..24 {
        pass_block(&blocks[17 * n..17 * n + 17], places, rows);
    }
}

// The corners of w, for mark v, of which the straight has no place of two blocks.
fn unshared_word(blocks: &[u16], masks: &[u64], places: &Places, v: usize, q: usize, w: u64) -> u64
    requires { (Bounded blocks.now) × (Masks blocks.now masks.now) × (Marks places.now.east places.now.north) × (v < 240) × (q < 3) }
    ensures { Kept (InTwo blocks.now places.now.east places.now.north v) q w result }
{
    let b = places.at(v);
    let mut r = w;
    let mut rest = w;
    while 0 < rest {
        let i = lowest(rest);
        let a = places.at(64 * q + i as usize);
        let shared = seam_search::shared_among(blocks, masks, 16777215, a, b);
        r = without_if(r, i, shared);
        rest = without_lowest(rest);
    }
    r
}

// Takes away the straights that have a place of two blocks.
fn pass_seams(blocks: &[u16], masks: &[u64], places: &Places, rows: &mut [u64])
    requires { (Bounded blocks.now) × (Masks blocks.now masks.now) × (Marks places.now.east places.now.north) × (length rows.old ≡ 720) }
    ensures { Changed (Sifts (InTwo blocks.now places.now.east places.now.north)) rows.old rows.new 720 }
{
    for (k, word) in rows.iter_mut().enumerate() {
        *word = unshared_word(blocks, masks, places, k / 3, k % 3, *word);
    }
}

// The same, where some blocks may share a place.
fn leave_seams(blocks: &[u16], runs: &[u16], places: &Places, rows: &mut [u64])
    requires { (Upright (stored blocks.now runs.now)) × (PlacesOf (stored blocks.now runs.now) places.now.east places.now.north) × (AllSay (Spared (stored blocks.now runs.now) 24) rows.old) }
    ensures { AllSay (Seen (stored blocks.now runs.now)) rows.new }
{
    let mut masks = [0u64; 24];
    seam_search::mark_masks(blocks, &mut masks);
    if seam_search::all_apart(blocks, &masks) {
        return;
    }
    pass_seams(blocks, &masks, places, rows);
}

// The corners that each mark has a clear straight to, three words a mark.
pub fn fill_clear(blocks: &[u16], runs: &[u16], rows: &mut [u64])
    requires { (Upright (stored blocks.now runs.now)) × (length rows.old ≡ 720) }
    ensures { Rows blocks.now (ByPlaces (stored blocks.now runs.now)) rows.new 720 }
{
    let mut places = Places {
        east: [0; 240],
        north: [0; 240],
    };
    code_table::fill_marks(blocks, runs, &mut places);
    let mut corners = [0u64; 3];
    corner_words::mark_corners(blocks, &mut corners);
    begin(blocks, runs, &corners, rows);
    pass_blocks(blocks, runs, &places, rows);
    leave_seams(blocks, runs, &places, rows);
    corner_words::mirror(rows);
}
