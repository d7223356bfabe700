// The edits whose arguments stand in a yard file: the fields at a position, read and handed to the call.
#![tactic(auto)]

ghost use Rattle.std.specs.Prelude.{◌≡◌, ◌+◌, ◌≤◌, length};
ghost use Rattle.geometry.specs.Words.{point_of};
ghost use Rattle.tables.specs.Tables.{tables};
ghost use Rattle.book.specs.Book.{add_block, move_block, add_run, move_run, set_charge};
ghost use Rattle.book.specs.Edits.{Called};
ghost use Rattle.file_words.specs.Words.{byte, block_size, field, displacement, corner_words};
ghost use Rattle.fields.specs.Asked.{place_in};
ghost use Rattle.refusals.specs.Numbers.{answer_of};

use block_edits::{add_block, move_block};
use charge_edits::set_charge;
use file_words::{corners_in, displacement, field};
use geometry::Place;
use refusals::Refusal;
use run_edits::{add_run, move_run};

// The place whose two coordinates stand at a position.
fn place_in(file: &[u8], at: usize) -> Place
    requires { at + 4 ≤ length file.now }
    ensures { point_of result ≡ place_in file.now at }
{
    let east = field(file, at);
    let north = field(file, at + 2);
    Place { east, north }
}

// Adds the block whose count byte stands at a position.
pub fn add_block_at(
    file: &[u8],
    at: usize,
    blocks: &mut [u16],
    runs: &mut [u16],
    pairs: &mut [u8],
    routes: &mut [u32],
    totals: &mut [u32],
    number: u32,
) -> Result<(), Refusal>
    requires { (at + block_size (byte file.now 3) (byte file.now at) ≤ length file.now) × (length file.now ≤ 8192) }
    ensures { Called (add_block number (corner_words file.now at))
        (tables blocks.old runs.old pairs.old routes.old totals.old)
        (answer_of result) (tables blocks.new runs.new pairs.new routes.new totals.new) }
{
    let mut room = [0u16; 510];
    let words = corners_in(file, at, &mut room);
    add_block(blocks, runs, pairs, routes, totals, number, words)
}

// Moves a block by the displacement that stands at a position.
pub fn move_block_at(
    file: &[u8],
    at: usize,
    blocks: &mut [u16],
    runs: &mut [u16],
    pairs: &mut [u8],
    routes: &mut [u32],
    totals: &mut [u32],
    number: u32,
) -> Result<(), Refusal>
    requires { at + 4 ≤ length file.now }
    ensures { Called (move_block number (displacement (field file.now at)) (displacement (field file.now (at + 2))))
        (tables blocks.old runs.old pairs.old routes.old totals.old)
        (answer_of result) (tables blocks.new runs.new pairs.new routes.new totals.new) }
{
    let east = field(file, at);
    let north = field(file, at + 2);
    move_block(
        blocks,
        runs,
        pairs,
        routes,
        totals,
        number,
        displacement(east),
        displacement(north),
    )
}

// Adds a run between the two places that stand at a position.
pub fn add_run_at(
    file: &[u8],
    at: usize,
    blocks: &mut [u16],
    runs: &mut [u16],
    pairs: &mut [u8],
    routes: &mut [u32],
    totals: &mut [u32],
    number: u32,
) -> Result<(), Refusal>
    requires { at + 8 ≤ length file.now }
    ensures { Called (add_run number (place_in file.now at) (place_in file.now (at + 4)))
        (tables blocks.old runs.old pairs.old routes.old totals.old)
        (answer_of result) (tables blocks.new runs.new pairs.new routes.new totals.new) }
{
    let first = place_in(file, at);
    let second = place_in(file, at + 4);
    add_run(blocks, runs, pairs, routes, totals, number, first, second)
}

// Moves a run to the two places that stand at a position.
pub fn move_run_at(
    file: &[u8],
    at: usize,
    blocks: &mut [u16],
    runs: &mut [u16],
    pairs: &mut [u8],
    routes: &mut [u32],
    totals: &mut [u32],
    number: u32,
) -> Result<(), Refusal>
    requires { at + 8 ≤ length file.now }
    ensures { Called (move_run number (place_in file.now at) (place_in file.now (at + 4)))
        (tables blocks.old runs.old pairs.old routes.old totals.old)
        (answer_of result) (tables blocks.new runs.new pairs.new routes.new totals.new) }
{
    let first = place_in(file, at);
    let second = place_in(file, at + 4);
    move_run(blocks, runs, pairs, routes, totals, number, first, second)
}

// Sets the figure that stands at a position.
pub fn set_charge_at(
    file: &[u8],
    at: usize,
    blocks: &mut [u16],
    runs: &mut [u16],
    pairs: &mut [u8],
    routes: &mut [u32],
    totals: &mut [u32],
) -> Result<(), Refusal>
    requires { at + 2 ≤ length file.now }
    ensures { Called (set_charge (field file.now at))
        (tables blocks.old runs.old pairs.old routes.old totals.old)
        (answer_of result) (tables blocks.new runs.new pairs.new routes.new totals.new) }
{
    let figure = field(file, at);
    set_charge(blocks, runs, pairs, routes, totals, figure)
}
