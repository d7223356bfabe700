// The edit of the figure, what a straight longer than 0 is charged at least, over five tables that the caller lends.
// It is refused by the first question that is answered no, and then changes no table.
#![tactic(auto)]

ghost use Rattle.std.specs.Prelude.{◌≡◌, ◌≤◌, length};
ghost use Rattle.refusals.specs.Numbers.{answer_of};
ghost use Rattle.tables.specs.Tables.{tables, stored};
ghost use Rattle.tables.specs.inner.Fit.{Fit};
ghost use Rattle.book.specs.Book.{set_charge};
ghost use Rattle.book.specs.Edits.{FigureEdited, Called};

use answers::set_charge_answer;
use refusals::Refusal;
use routing::all_routes;
use totals::write_totals;

// The figure is replaced; routes and totals follow.
fn replace_figure(
    blocks: &[u16],
    runs: &mut [u16],
    pairs: &[u8],
    routes: &mut [u32],
    totals: &mut [u32],
    figure: u16,
)
    requires fit { (Fit (stored blocks.now runs.old)) × (figure ≤ 1000) }
    requires sizes { (length pairs.now ≡ 28680) × (length routes.old ≡ 4728) × (length totals.old ≡ 25) }
    ensures { FigureEdited (tables blocks.now runs.old pairs.now routes.old totals.old)
        figure (tables blocks.now runs.new pairs.now routes.new totals.new) }
{
    runs[120] = figure;
    all_routes(blocks, runs, pairs, routes);
    write_totals(pairs, routes, totals);
}

pub fn set_charge(
    blocks: &[u16],
    runs: &mut [u16],
    pairs: &[u8],
    routes: &mut [u32],
    totals: &mut [u32],
    figure: u16,
) -> Result<(), Refusal>
    ensures { Called (set_charge figure)
        (tables blocks.now runs.old pairs.now routes.old totals.old)
        (answer_of result) (tables blocks.now runs.new pairs.now routes.new totals.new) }
{
    set_charge_answer(blocks, runs, pairs, routes, totals, figure)?;
    replace_figure(blocks, runs, pairs, routes, totals, figure);
    Ok(())
}
