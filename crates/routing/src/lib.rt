// The routes of the runs: a walk forwards by the keys of a search, and the records that hold it.
#![tactic(auto)]

ghost use Rattle.std.specs.Prelude.{◌≡◌, ◌+◌, ◌*◌, ◌<◌, ◌≤◌, length};
ghost use Rattle.lists.specs.inner.Filled.{filled};
ghost use Rattle.lists.specs.inner.Tells.{Tells};
ghost use Rattle.tables.specs.Tables.{stored, first_end, second_end};
ghost use Rattle.tables.specs.inner.Fit.{Fit};
ghost use Rattle.adjacency.specs.inner.Adjacent.{Rows};
ghost use Rattle.search.specs.Network.{ByBytes, graph};
ghost use Rattle.search.specs.inner.Keys.{Searchable, Keyed};
ghost use Rattle.search.specs.inner.Parts.{Places};
ghost use Rattle.routing.specs.Routes.{RouteIs, Routed};
ghost use Rattle.routing.specs.inner.Walking.{TightKey, Hop, Walked};

use search::ByPairs;

// Whether the straight from v to u is clear and adds what their keys differ by.
fn tight(blocks: &[u16], runs: &[u16], pairs: &[u8], v: usize, u: usize, kv: u32, ku: u32) -> bool
    requires searchable { Searchable (stored blocks.now runs.now) pairs.now }
    requires v_bound { (v < 240) × (u < 240) × (v ≡ u → kv ≡ ku) }
    ensures { Tells (TightKey (graph (stored blocks.now runs.now) (ByBytes pairs.now)) v u kv ku) result }
{
    if ku >= kv {
        return false;
    }
    let more = kv - ku;
    if more % 256 != 1 {
        return false;
    }
    if tables::pair_byte(pairs, v, u) != 254 {
        return false;
    }
    let cost = (more / 256) as u64;
    let square = lengths::squared(
        tables::place_of(blocks, runs, v),
        tables::place_of(blocks, runs, u),
    );
    let figure = tables::figure_of(runs);
    lengths::is_charge(figure, square, cost)
}

// The lowest mark after v by the keys.
fn next_hop(
    blocks: &[u16],
    runs: &[u16],
    pairs: &[u8],
    key: &[u32],
    v: usize,
    second: usize,
) -> usize
    requires searchable { Searchable (stored blocks.now runs.now) pairs.now }
    requires v_bound { (v < 240) × (192 ≤ second) × (length key.now ≡ 240) }
    ensures { Hop (graph (stored blocks.now runs.now) (ByBytes pairs.now)) second key.now v result }
{
    let kv = key[v];
    for u in 0..192 {
        let ku = key[u];
        if tight(blocks, runs, pairs, v, u, kv, ku) {
            return u;
        }
    }
    second
}

// Writes the marks of run m's route into its cleared record, and answers how many there are.
fn walk(
    blocks: &[u16],
    runs: &[u16],
    pairs: &[u8],
    m: usize,
    key: &[u32],
    part: &mut [u32],
) -> usize
    requires searchable { Searchable (stored blocks.now runs.now) pairs.now }
    requires m_bound { (m < 24) × (Keyed (graph (stored blocks.now runs.now) (ByBytes pairs.now)) (first_end m) (second_end m) key.now) × (part.old ≡ filled 197 0) }
    ensures { Walked (graph (stored blocks.now runs.now) (ByBytes pairs.now)) (first_end m) (second_end m) key.now part.new result }
{
    let second = 193 + 2 * m;
    let mut v = 192 + 2 * m;
    let mut n = 1;
    part[3] = v as u32;
    loop {
        let u = next_hop(blocks, runs, pairs, key, v, second);
        part[n + 3] = u as u32;
        n += 1;
        if u == second {
            return n;
        }
        v = u;
    }
}

// Run m's route record, written into its own 197 words.
pub fn route(
    blocks: &[u16],
    runs: &[u16],
    places: &[u16],
    pairs: &[u8],
    adj: &[u64],
    m: usize,
    part: &mut [u32],
)
    requires fit { (Fit (stored blocks.now runs.now)) × (length pairs.now ≡ 28680) × (m < 24) × (length part.old ≡ 197) }
    requires rows { (Rows blocks.now pairs.now adj.now 576) × (Places (stored blocks.now runs.now) places.now 240) }
    ensures { RouteIs (stored blocks.now runs.now) (ByBytes pairs.now) m part.new }
{
    lists::fill(part, 0);
    if runs[5 * m] == 0 {
        return;
    }
    let straights = ByPairs { pairs, adj };
    let mut key = [4000000000u32; 240];
    if settling::settle(blocks, runs, places, &straights, m, &mut key) {
        let n = walk(blocks, runs, pairs, m, &key, part);
        part[0] = 1;
        part[1] = key[192 + 2 * m] / 256;
        part[2] = n as u32;
    } else {
        part[0] = 2;
    }
}

// Every run's.
#[inline(never)]
pub fn all_routes(blocks: &[u16], runs: &[u16], pairs: &[u8], routes: &mut [u32])
    requires { (Fit (stored blocks.now runs.now)) × (length pairs.now ≡ 28680) × (length routes.old ≡ 4728) }
    ensures { Routed (stored blocks.now runs.now) pairs.now routes.new }
{
    let mut places = [0u16; 480];
    search::list_places(blocks, runs, &mut places);
    let mut adj = [0u64; 576];
    adjacency::fill_rows(blocks, pairs, &mut adj);
    for m in 0..24 {
        let at = 197 * m;
        let end = at + 197;
        route(blocks, runs, &places, pairs, &adj, m, &mut routes[at..end]);
    }
}

// Whether run m's route record is that of the pair bytes.
fn route_right(
    blocks: &[u16],
    runs: &[u16],
    places: &[u16],
    pairs: &[u8],
    adj: &[u64],
    part: &[u32],
    m: usize,
) -> bool
    requires fit { (Fit (stored blocks.now runs.now)) × (length pairs.now ≡ 28680) × (m < 24) × (length part.now ≡ 197) }
    requires rows { (Rows blocks.now pairs.now adj.now 576) × (Places (stored blocks.now runs.now) places.now 240) }
    ensures { Tells (RouteIs (stored blocks.now runs.now) (ByBytes pairs.now) m part.now) result }
{
    let mut due = [0u32; 197];
    route(blocks, runs, places, pairs, adj, m, &mut due);
    part == due.as_slice()
}

// Whether every route record is that of the pair bytes.
pub fn routes_right(blocks: &[u16], runs: &[u16], pairs: &[u8], routes: &[u32]) -> bool
    requires { (Fit (stored blocks.now runs.now)) × (length pairs.now ≡ 28680) × (length routes.now ≡ 4728) }
    ensures { Tells (Routed (stored blocks.now runs.now) pairs.now routes.now) result }
{
    let mut places = [0u16; 480];
    search::list_places(blocks, runs, &mut places);
    let mut adj = [0u64; 576];
    adjacency::fill_rows(blocks, pairs, &mut adj);
    for k in 0..24 {
        let at = 197 * k;
        let end = at + 197;
        if !route_right(blocks, runs, &places, pairs, &adj, &routes[at..end], k) {
            return false;
        }
    }
    true
}
