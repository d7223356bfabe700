// The table of totals: how many pairs name each block, and the summed lengths of the found runs.
#![tactic(auto)]

ghost use Rattle.std.specs.Prelude.{◌≡◌, length};
ghost use Rattle.lists.specs.inner.Filled.{filled};
ghost use Rattle.lists.specs.inner.Tells.{Tells};
ghost use Rattle.totals.specs.Totals.{found_length, found_sum, totals_of};
ghost use Rattle.totals.specs.inner.Addable.{Addable, Tallied};

use lists::same_words;

// How many bytes have each value.
fn tally(pairs: &[u8], counts: &mut [u32; 256])
    requires { (length pairs.now ≡ 28680) × (counts.old ≡ filled 256 0) }
    ensures { Tallied pairs.now counts.new }
{
    for byte in pairs {
        counts[usize::from(*byte)] += 1;
    }
}

// What a route record adds to the sum.
#[tactic(auto, unfolding(crate::specs::Totals::found_length))]
fn found_length(part: &[u32]) -> u32
    requires { length part.now ≡ 197 }
    ensures { result ≡ found_length part.now }
{
    if part[0] == 1 { part[1] } else { 0 }
}

fn found_sum(routes: &[u32]) -> u32
    requires { Addable routes.now }
    ensures { result ≡ found_sum 24 routes.now }
{
    let mut sum = 0;
    for m in 0..24 {
        sum += found_length(&routes[197 * m..197 * m + 197]);
    }
    sum
}

// The totals of pairs and routes as they stand, whatever the table held.
pub fn write_totals(pairs: &[u8], routes: &[u32], totals: &mut [u32])
    requires { (length pairs.now ≡ 28680) × (Addable routes.now) × (length totals.old ≡ 25) }
    ensures { totals.new ≡ totals_of pairs.now routes.now }
{
    let mut counts = [0u32; 256];
    tally(pairs, &mut counts);
    totals[..24].copy_from_slice(&counts[..24]);
    totals[24] = found_sum(routes);
}

// Whether the totals are those of pairs and routes as they stand.
pub fn totals_right(pairs: &[u8], routes: &[u32], totals: &[u32]) -> bool
    requires { (length pairs.now ≡ 28680) × (Addable routes.now) × (length totals.now ≡ 25) }
    ensures { Tells (totals.now ≡ totals_of pairs.now routes.now) result }
{
    let mut due = [0u32; 25];
    write_totals(pairs, routes, &mut due);
    same_words(totals, &due)
}
