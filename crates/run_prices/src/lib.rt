// What every run costs, from the blocks and runs alone: the state and the length of its route.
#![tactic(auto)]

ghost use Rattle.std.specs.Prelude.{◌≡◌, ◌<◌, length};
ghost use Rattle.lists.specs.inner.Tells.{Tells};
ghost use Rattle.seams.specs.inner.Near.{Near};
ghost use Rattle.tables.specs.Tables.{stored, first_end, second_end};
ghost use Rattle.tables.specs.inner.Fit.{Fit};
ghost use Rattle.codes.specs.inner.Codes.{Upright};
ghost use Rattle.visibility.specs.Visibility.{ByPlaces};
ghost use Rattle.mark_rows.specs.inner.Adjacent.{Rows};
ghost use Rattle.search.specs.inner.Parts.{Places};
ghost use Rattle.run_prices.specs.Prices.{Priced, Prices};

use row_search::ByMarkRows;

// The state and the length in a run's route record.
#[derive(Clone, Copy)]
pub struct Price {
    pub state: u32,
    pub charge: u32,
}

// Whether the ends of run m have a clear straight between them.
fn facing(blocks: &[u16], runs: &[u16], near: &[u8], m: usize) -> bool
    requires { (Fit (stored blocks.now runs.now)) × (Near blocks.now near.now) × (m < 24) }
    ensures { Tells (ByPlaces (stored blocks.now runs.now) (first_end m) (second_end m)) result }
{
    visibility::fresh_byte(blocks, runs, near, 192 + 2 * m, 193 + 2 * m) == 254
}

// The state and the length of run m's route: a search finds them, and no walk is needed.
fn run_price(
    blocks: &[u16],
    runs: &[u16],
    places: &[u16],
    rows: &[u64],
    near: &[u8],
    m: usize,
) -> Price
    requires fit { (Fit (stored blocks.now runs.now)) × (Near blocks.now near.now) × (m < 24) }
    requires places { (Places (stored blocks.now runs.now) places.now 240) × (Rows blocks.now (ByPlaces (stored blocks.now runs.now)) rows.now 720) }
    ensures { Priced (stored blocks.now runs.now) (ByPlaces (stored blocks.now runs.now)) m result.state result.charge }
{
    if runs[5 * m] == 0 {
        return Price {
            state: 0,
            charge: 0,
        };
    }
    let mut key = [4000000000u32; 240];
    let straights = ByMarkRows {
        rows,
        facing: facing(blocks, runs, near, m),
    };
    if settling::settle(blocks, runs, places, &straights, m, &mut key) {
        return Price {
            state: 1,
            charge: key[192 + 2 * m] / 256,
        };
    }
    Price {
        state: 2,
        charge: 0,
    }
}

// Every run's, by the rows of clear straights.
fn price_runs(blocks: &[u16], runs: &[u16], rows: &[u64], quote: &mut [u32])
    requires { (Fit (stored blocks.now runs.now)) × (Rows blocks.now (ByPlaces (stored blocks.now runs.now)) rows.now 720) × (length quote.old ≡ 48) }
    ensures { Prices (stored blocks.now runs.now) (ByPlaces (stored blocks.now runs.now)) quote.new }
{
    let mut places = [0u16; 480];
    search::list_places(blocks, runs, &mut places);
    let mut near = [0u8; 24];
    neighbours::mark_near(blocks, &mut near);
    for m in 0..24 {
        let p = run_price(blocks, runs, &places, rows, &near, m);
        quote[m] = p.state;
        quote[24 + m] = p.charge;
    }
}

// What the stored records require of every run, by themselves alone.
pub fn price_records(blocks: &[u16], runs: &[u16], quote: &mut [u32])
    requires { (Upright (stored blocks.now runs.now)) × (length quote.old ≡ 48) }
    ensures { Prices (stored blocks.now runs.now) (ByPlaces (stored blocks.now runs.now)) quote.new }
{
    let mut rows = [0u64; 720];
    clear_rows::fill_clear(blocks, runs, &mut rows);
    price_runs(blocks, runs, &rows, quote);
}
