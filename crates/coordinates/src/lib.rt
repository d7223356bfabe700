// The coordinates of a block record: whether some corner has one past a limit.
#![tactic(auto)]

ghost use Rattle.std.specs.Prelude.{◌<◌, ◌≤◌, get_or};
ghost use Rattle.coordinates.specs.inner.Scans.{Counted, Past, SomePast, CornerPast};
ghost use Rattle.lists.specs.inner.Tells.{Tells};

// A limit of a coordinate, and which way past it lies.
#[derive(Clone, Copy, Debug, PartialEq, Eq)]
pub enum Limit {
    Above(u16),
    Below(u16),
}

// Whether w is past the limit.
fn past(w: u16, limit: Limit) -> bool
    ensures { Tells (Past limit w) result }
{
    match limit {
        Limit::Above(c) => c < w,
        Limit::Below(c) => w < c,
    }
}

// Whether one of the words j, j + 2, j + 4 and j + 6 is past the limit.
fn four_past(words: &[u16], j: usize, limit: Limit) -> bool
    requires { (Counted words.now) × (j ≤ 10) }
    ensures { Tells (SomePast words.now 4 j limit) result }
{
    past(words[j], limit)
        || past(words[j + 2], limit)
        || past(words[j + 4], limit)
        || past(words[j + 6], limit)
}

// `any_past` of a record with less than four corners: the first, the middle and the last are all of them.
fn few_past(words: &[u16], i: usize, limit: Limit) -> bool
    requires { (Counted words.now) × (get_or words.now 0 0 < 4) × (i ≤ 2) }
    ensures { Tells (CornerPast words.now i limit) result }
{
    let m = words[0] as usize;
    if m == 0 {
        return false;
    }
    past(words[i], limit)
        || past(words[m / 2 * 2 + i], limit)
        || past(words[2 * (m - 1) + i], limit)
}

// Whether some corner of a block record has a coordinate past the limit: east where i is 1, north where it is 2. The first
// four corners and the last four are all of them.
pub fn any_past(words: &[u16], i: usize, limit: Limit) -> bool
    requires { (Counted words.now) × (i ≤ 2) }
    ensures { Tells (CornerPast words.now i limit) result }
{
    let m = words[0] as usize;
    if m < 4 {
        return few_past(words, i, limit);
    }
    four_past(words, i, limit) || four_past(words, 2 * (m - 4) + i, limit)
}
