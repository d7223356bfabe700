// The search of one run: marks are settled one by one, the least sum of key and bound first, until the first end is.
#![tactic(auto)]

ghost use Rattle.std.specs.Prelude.{◌≡◌, ℕ, ◌<◌, length};
ghost use Rattle.tables.specs.Tables.{stored, first_end, second_end};
ghost use Rattle.tables.specs.inner.Fit.{Fit};
ghost use Rattle.search.specs.Network.{graph};
ghost use Rattle.search.specs.inner.LowerBound.{lower_bound};
ghost use Rattle.search.specs.inner.Keys.{unreached, Filled, Searched};
ghost use Rattle.search.specs.inner.Parts.{Places, Ranked, Bends, Parted};
ghost use Rattle.settling.specs.inner.Turns.{EndSettled, Due, Turned};

use search::{Settled, Straights, Waiting};

// Settles the second end of run m, when all n marks are waiting.
fn settle_end<S: Straights>(
    blocks: &[u16],
    runs: &[u16],
    places: &[u16],
    straights: &S,
    m: usize,
    n: usize,
    list: &mut Waiting,
    key: &mut [u32],
) -> usize
    requires fit { (Fit (stored blocks.now runs.now)) × (Places (stored blocks.now runs.now) places.now 240) × (m < 24) }
    requires told { S.told straights.now blocks.now (first_end m) (second_end m) }
    requires ranked { (Ranked blocks.now (first_end m) list.old.order list.old.spot n) × (Filled key.old 240 unreached) × (length list.old.sums ≡ 194) }
    ensures { EndSettled (stored blocks.now runs.now) (S.clear straights.now) m list.old.order list.old.spot key.old list.new.order list.new.spot key.new list.new.sums result n }
{
    let first = 192 + 2 * m;
    let second = 193 + 2 * m;
    key[second] = 0;
    let by = Settled {
        mark: second,
        place: search::listed_place(places, second),
        key: 0,
        left: n,
        figure: tables::figure_of(runs),
        goal: search::listed_place(places, first),
    };
    search::relax(blocks, places, straights, by, first, n, list, key)
}

// Settles the mark at a place of the list, where n marks are waiting and the first u of them are not reached.
fn settle_mark<S: Straights>(
    blocks: &[u16],
    runs: &[u16],
    places: &[u16],
    straights: &S,
    m: usize,
    at: usize,
    u: usize,
    n: usize,
    list: &mut Waiting,
    key: &mut [u32],
) -> usize
    requires fit { (Fit (stored blocks.now runs.now)) × (Places (stored blocks.now runs.now) places.now 240) × (m < 24) }
    requires told { (v : ℕ) → v < 192 → S.told straights.now blocks.now (first_end m) v }
    requires parted { (Parted (lower_bound (stored blocks.now runs.now) (first_end m)) list.old.order list.old.spot key.old list.old.sums u n) × (Bends blocks.now (first_end m) list.old.order list.old.spot n) × (Due list.old.order key.old u n at) }
    ensures { Turned (stored blocks.now runs.now) (S.clear straights.now) m list.old.order list.old.spot key.old list.new.order list.new.spot key.new list.new.sums at n result }
{
    let first = 192 + 2 * m;
    let s = list.order[at] as usize;
    let left = n - 1;
    search::swap(list, at, left);
    list.sums[at] = list.sums[left];
    let by = Settled {
        mark: s,
        place: search::listed_place(places, s),
        key: key[s],
        left,
        figure: tables::figure_of(runs),
        goal: search::listed_place(places, first),
    };
    search::relax(blocks, places, straights, by, first, u, list, key)
}

// Finds the keys for run m, of which none is reached at first, by the clear straights; answers whether there is a way.
// The list is kept in three parts: the first u marks are not reached, those before n are waiting, the others are settled.
pub fn settle<S: Straights>(
    blocks: &[u16],
    runs: &[u16],
    places: &[u16],
    straights: &S,
    m: usize,
    key: &mut [u32],
) -> bool
    requires fit { (Fit (stored blocks.now runs.now)) × (Places (stored blocks.now runs.now) places.now 240) }
    requires told { (S.told straights.now blocks.now (first_end m) (second_end m)) × ((v : ℕ) → v < 192 → S.told straights.now blocks.now (first_end m) v) }
    requires m_bound { (m < 24) × (Filled key.old 240 unreached) }
    ensures { Searched (graph (stored blocks.now runs.now) (S.clear straights.now)) (first_end m) (second_end m) key.new result }
{
    let first = 192 + 2 * m;
    let mut list = Waiting {
        order: [0; 194],
        spot: [0; 240],
        sums: [0; 194],
    };
    let mut n = search::list_bends(blocks, first, &mut list);
    let mut u = settle_end(blocks, runs, places, straights, m, n, &mut list, key);
    loop {
        let Some(at) = heaps::least_sum(&list.sums, u, n) else {
            return false;
        };
        if key[first] <= list.sums[at] {
            return true;
        }
        u = settle_mark(blocks, runs, places, straights, m, at, u, n, &mut list, key);
        n -= 1;
    }
}
