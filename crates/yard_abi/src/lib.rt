// The calls of the yard for C and Rust. Each has the contract of the call under it; a slice is passed as a pointer and a length in elements.
#![tactic(auto)]

ghost use Rattle.geometry.specs.Words.{point};
ghost use Rattle.tables.specs.Tables.{tables, stored};
ghost use Rattle.book.specs.Book.{add_block, remove_block, move_block, add_run, remove_run, move_run, set_charge};
ghost use Rattle.book.specs.Edits.{Started, Called, Checked};
ghost use Rattle.shares.specs.Shares.{terms};
ghost use Rattle.shares.specs.Calls.{add_run_for, remove_run_for, move_run_for, CalledFor};
ghost use Rattle.counter.specs.Quote.{RouteQuoted};
ghost use Rattle.move_quotes.specs.Quote.{MoveQuoted};
ghost use Rattle.ducts.specs.Quote.{DuctQuoted};
ghost use Rattle.drawn_routes.specs.Lists.{PieceFilled, BendFilled};
ghost use Rattle.convert.specs.Convert.{ConvertedInto};
ghost use Rattle.file_calls.specs.Reading.{ReadInto};
ghost use Rattle.file_calls.specs.Replaying.{ReplayedInto};

use geometry::Place;
use refusals::answer;

#[unsafe(no_mangle)]
pub extern "C" fn yard_start(
    blocks: &mut [u16],
    runs: &mut [u16],
    pairs: &mut [u8],
    routes: &mut [u32],
    totals: &mut [u32],
) -> u32
    ensures { Started (tables blocks.old runs.old pairs.old routes.old totals.old)
        result (tables blocks.new runs.new pairs.new routes.new totals.new) }
{
    answer(yard::start(blocks, runs, pairs, routes, totals))
}

#[unsafe(no_mangle)]
pub extern "C" fn yard_add_block(
    blocks: &mut [u16],
    runs: &[u16],
    pairs: &mut [u8],
    routes: &mut [u32],
    totals: &mut [u32],
    number: u32,
    corners: &[u16],
) -> u32
    ensures { Called (add_block number corners.now)
        (tables blocks.old runs.now pairs.old routes.old totals.old)
        result (tables blocks.new runs.now pairs.new routes.new totals.new) }
{
    answer(block_edits::add_block(blocks, runs, pairs, routes, totals, number, corners))
}

#[unsafe(no_mangle)]
pub extern "C" fn yard_remove_block(
    blocks: &mut [u16],
    runs: &[u16],
    pairs: &mut [u8],
    routes: &mut [u32],
    totals: &mut [u32],
    number: u32,
) -> u32
    ensures { Called (remove_block number)
        (tables blocks.old runs.now pairs.old routes.old totals.old)
        result (tables blocks.new runs.now pairs.new routes.new totals.new) }
{
    answer(block_edits::remove_block(blocks, runs, pairs, routes, totals, number))
}

#[unsafe(no_mangle)]
pub extern "C" fn yard_move_block(
    blocks: &mut [u16],
    runs: &[u16],
    pairs: &mut [u8],
    routes: &mut [u32],
    totals: &mut [u32],
    number: u32,
    east: i16,
    north: i16,
) -> u32
    ensures { Called (move_block number east north)
        (tables blocks.old runs.now pairs.old routes.old totals.old)
        result (tables blocks.new runs.now pairs.new routes.new totals.new) }
{
    answer(block_edits::move_block(blocks, runs, pairs, routes, totals, number, east, north))
}

#[unsafe(no_mangle)]
pub extern "C" fn yard_add_run(
    blocks: &[u16],
    runs: &mut [u16],
    pairs: &mut [u8],
    routes: &mut [u32],
    totals: &mut [u32],
    number: u32,
    first_east: u16,
    first_north: u16,
    second_east: u16,
    second_north: u16,
) -> u32
    ensures { Called (add_run number (point first_east first_north) (point second_east second_north))
        (tables blocks.now runs.old pairs.old routes.old totals.old)
        result (tables blocks.now runs.new pairs.new routes.new totals.new) }
{
    let first = Place {
        east: first_east,
        north: first_north,
    };
    let second = Place {
        east: second_east,
        north: second_north,
    };
    answer(run_edits::add_run(blocks, runs, pairs, routes, totals, number, first, second))
}

#[unsafe(no_mangle)]
pub extern "C" fn yard_remove_run(
    blocks: &[u16],
    runs: &mut [u16],
    pairs: &mut [u8],
    routes: &mut [u32],
    totals: &mut [u32],
    number: u32,
) -> u32
    ensures { Called (remove_run number)
        (tables blocks.now runs.old pairs.old routes.old totals.old)
        result (tables blocks.now runs.new pairs.new routes.new totals.new) }
{
    answer(run_edits::remove_run(blocks, runs, pairs, routes, totals, number))
}

#[unsafe(no_mangle)]
pub extern "C" fn yard_move_run(
    blocks: &[u16],
    runs: &mut [u16],
    pairs: &mut [u8],
    routes: &mut [u32],
    totals: &mut [u32],
    number: u32,
    first_east: u16,
    first_north: u16,
    second_east: u16,
    second_north: u16,
) -> u32
    ensures { Called (move_run number (point first_east first_north) (point second_east second_north))
        (tables blocks.now runs.old pairs.old routes.old totals.old)
        result (tables blocks.now runs.new pairs.new routes.new totals.new) }
{
    let first = Place {
        east: first_east,
        north: first_north,
    };
    let second = Place {
        east: second_east,
        north: second_north,
    };
    answer(run_edits::move_run(blocks, runs, pairs, routes, totals, number, first, second))
}

#[unsafe(no_mangle)]
pub extern "C" fn yard_set_charge(
    blocks: &[u16],
    runs: &mut [u16],
    pairs: &[u8],
    routes: &mut [u32],
    totals: &mut [u32],
    figure: u16,
) -> u32
    ensures { Called (set_charge figure)
        (tables blocks.now runs.old pairs.now routes.old totals.old)
        result (tables blocks.now runs.new pairs.now routes.new totals.new) }
{
    answer(charge_edits::set_charge(blocks, runs, pairs, routes, totals, figure))
}

#[unsafe(no_mangle)]
pub extern "C" fn yard_add_run_for(
    blocks: &[u16],
    runs: &mut [u16],
    pairs: &mut [u8],
    routes: &mut [u32],
    totals: &mut [u32],
    holders: &mut [u8],
    shares: &[u8],
    ceilings: &[u8],
    contractor: u32,
    number: u32,
    first_east: u16,
    first_north: u16,
    second_east: u16,
    second_north: u16,
) -> u32
    ensures { CalledFor (add_run_for contractor number (point first_east first_north) (point second_east second_north))
        (terms shares.now ceilings.now)
        (tables blocks.now runs.old pairs.old routes.old totals.old) holders.old
        result (tables blocks.now runs.new pairs.new routes.new totals.new) holders.new }
{
    let first = Place {
        east: first_east,
        north: first_north,
    };
    let second = Place {
        east: second_east,
        north: second_north,
    };
    answer(share_edits::add_run_for(
        blocks, runs, pairs, routes, totals, holders, shares, ceilings, contractor, number, first,
        second,
    ))
}

#[unsafe(no_mangle)]
pub extern "C" fn yard_remove_run_for(
    blocks: &[u16],
    runs: &mut [u16],
    pairs: &mut [u8],
    routes: &mut [u32],
    totals: &mut [u32],
    holders: &mut [u8],
    shares: &[u8],
    ceilings: &[u8],
    contractor: u32,
    number: u32,
) -> u32
    ensures { CalledFor (remove_run_for contractor number) (terms shares.now ceilings.now)
        (tables blocks.now runs.old pairs.old routes.old totals.old) holders.old
        result (tables blocks.now runs.new pairs.new routes.new totals.new) holders.new }
{
    answer(share_edits::remove_run_for(
        blocks, runs, pairs, routes, totals, holders, shares, ceilings, contractor, number,
    ))
}

#[unsafe(no_mangle)]
pub extern "C" fn yard_move_run_for(
    blocks: &[u16],
    runs: &mut [u16],
    pairs: &mut [u8],
    routes: &mut [u32],
    totals: &mut [u32],
    holders: &[u8],
    shares: &[u8],
    ceilings: &[u8],
    contractor: u32,
    number: u32,
    first_east: u16,
    first_north: u16,
    second_east: u16,
    second_north: u16,
) -> u32
    ensures { CalledFor (move_run_for contractor number (point first_east first_north) (point second_east second_north))
        (terms shares.now ceilings.now)
        (tables blocks.now runs.old pairs.old routes.old totals.old) holders.now
        result (tables blocks.now runs.new pairs.new routes.new totals.new) holders.now }
{
    let first = Place {
        east: first_east,
        north: first_north,
    };
    let second = Place {
        east: second_east,
        north: second_north,
    };
    answer(share_edits::move_run_for(
        blocks, runs, pairs, routes, totals, holders, shares, ceilings, contractor, number, first,
        second,
    ))
}

#[unsafe(no_mangle)]
pub extern "C" fn yard_check(
    blocks: &[u16],
    runs: &[u16],
    pairs: &[u8],
    routes: &[u32],
    totals: &[u32],
) -> u32
    ensures { Checked (tables blocks.now runs.now pairs.now routes.now totals.now) result }
{
    answer(yard::check(blocks, runs, pairs, routes, totals))
}

// The record of a yard file at a position, as four words: its kind, its number, where its fields start, and the position after it.
#[unsafe(no_mangle)]
pub extern "C" fn yard_read(file: &[u8], at: usize, item: &mut [u64]) -> u32
    ensures { ReadInto file.now at item.old result item.new }
{
    answer(file_calls::read_into(file, at, item))
}

// The edits of a yard file, called in order up to its end or its stop; their answers, and two words: how many they are, and the position there.
#[unsafe(no_mangle)]
pub extern "C" fn yard_replay(
    blocks: &mut [u16],
    runs: &mut [u16],
    pairs: &mut [u8],
    routes: &mut [u32],
    totals: &mut [u32],
    file: &[u8],
    answers: &mut [u32],
    end: &mut [u64],
) -> u32
    ensures { ReplayedInto file.now
        (tables blocks.old runs.old pairs.old routes.old totals.old)
        answers.old end.old result answers.new end.new
        (tables blocks.new runs.new pairs.new routes.new totals.new) }
{
    answer(file_calls::replay_into(blocks, runs, pairs, routes, totals, file, answers, end))
}

#[unsafe(no_mangle)]
pub extern "C" fn yard_quote_route(blocks: &[u16], runs: &[u16], run: u32, route: &mut [u32]) -> u32
    ensures { RouteQuoted (stored blocks.now runs.now) run
        route.old result route.new }
{
    answer(counter::quote_route(blocks, runs, run, route))
}

#[unsafe(no_mangle)]
pub extern "C" fn yard_quote_move(
    blocks: &[u16],
    runs: &[u16],
    pairs: &[u8],
    routes: &[u32],
    totals: &[u32],
    number: u32,
    east: i16,
    north: i16,
    quote: &mut [u32],
) -> u32
    ensures { MoveQuoted (tables blocks.now runs.now pairs.now routes.now totals.now)
        number east north quote.old result quote.new }
{
    answer(move_quotes::quote_move(
        blocks, runs, pairs, routes, totals, number, east, north, quote,
    ))
}

#[unsafe(no_mangle)]
pub extern "C" fn yard_quote_duct(
    blocks: &[u16],
    runs: &[u16],
    run: u32,
    quote: &mut [u32],
    crossings: &mut [u16],
) -> u32
    ensures { DuctQuoted (stored blocks.now runs.now) run quote.old crossings.old
        result quote.new crossings.new }
{
    answer(ducts::quote_duct(blocks, runs, run, quote, crossings))
}

#[unsafe(no_mangle)]
pub extern "C" fn yard_piece(
    blocks: &[u16],
    runs: &[u16],
    pairs: &[u8],
    routes: &[u32],
    totals: &[u32],
    run: u32,
    piece: u32,
    kind: &mut [u32],
    points: &mut [f64],
) -> u32
    ensures { PieceFilled (tables blocks.now runs.now pairs.now routes.now totals.now)
        run piece kind.old points.old result kind.new points.new }
{
    answer(drawn_routes::fill_piece(
        blocks, runs, pairs, routes, totals, run, piece, kind, points,
    ))
}

#[unsafe(no_mangle)]
pub extern "C" fn yard_bend(
    blocks: &[u16],
    runs: &[u16],
    pairs: &[u8],
    routes: &[u32],
    totals: &[u32],
    run: u32,
    piece: u32,
    kind: &mut [u32],
    points: &mut [f64],
) -> u32
    ensures { BendFilled (tables blocks.now runs.now pairs.now routes.now totals.now)
        run piece kind.old points.old result kind.new points.new }
{
    answer(drawn_routes::fill_bend(
        blocks, runs, pairs, routes, totals, run, piece, kind, points,
    ))
}

#[unsafe(no_mangle)]
pub extern "C" fn yard_file_shorten(file: &[u8], buffer: &mut [u8], size: &mut [u32]) -> u32
    ensures { ConvertedInto 1 2 file.now buffer.old buffer.new size.old size.new result }
{
    answer(convert::shorten_into(file, buffer, size))
}

#[unsafe(no_mangle)]
pub extern "C" fn yard_file_lengthen(file: &[u8], buffer: &mut [u8], size: &mut [u32]) -> u32
    ensures { ConvertedInto 2 1 file.now buffer.old buffer.new size.old size.new result }
{
    answer(convert::lengthen_into(file, buffer, size))
}
