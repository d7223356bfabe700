// Blocks moved by a displacement: question 7, and the record that the move writes.
#![tactic(auto)]

ghost use Rattle.std.specs.Prelude.{◌≡◌, true, map, ◌+◌, ◌*◌, ◌<◌, pos, nat_abs, ◌+ℤ◌};
ghost use Rattle.std.specs.Int.{w64};
ghost use Rattle.std.proofs.Common.{SFits};
ghost use Rattle.lists.specs.Lists.{all};
ghost use Rattle.geometry.specs.Words.{corners};
ghost use Rattle.geometry.specs.inner.Bounds.{BoundedRecord};
ghost use Rattle.tables.specs.Written.{block_record};
ghost use Rattle.records.specs.Questions.{lands_right, shift_right, shifted};

// A coordinate moved by a displacement.
fn moved(at: u16, by: i16) -> i64
    ensures { result ≡ pos at +ℤ by }
{
    i64::from(at) + i64::from(by)
}

// Question 7 of a moved coordinate.
#[tactic(auto, unfolding(records::specs::Questions::lands_right))]
fn lands(at: u16, by: i16) -> bool
    ensures { result ≡ lands_right at by }
{
    let to = moved(at, by);
    0 <= to && to <= 32767
}

// The coordinate where a moved one lands.
#[tactic(auto, unfolding(records::specs::Questions::lands_right))]
fn landing(at: u16, by: i16) -> u16
    requires { lands_right at by ≡ true }
    ensures { result ≡ nat_abs (pos at +ℤ by) }
{
    moved(at, by) as u16
}

// Question 7 of a moved block.
pub fn shifts_right(words: &[u16], east: i16, north: i16) -> bool
    requires { BoundedRecord words.now }
    ensures { result ≡ all (shift_right east north) (corners words.now) }
{
    for k in 0..usize::from(words[0]) {
        if !lands(words[2 * k + 1], east) || !lands(words[2 * k + 2], north) {
            return false;
        }
    }
    true
}

// The record of a moved block.
pub fn moved_record(words: &[u16], east: i16, north: i16) -> [u16; 17]
    requires { (BoundedRecord words.now) × (all (shift_right east north) (corners words.now) ≡ true) }
    ensures { result ≡ block_record (map (shifted east north) (corners words.now)) }
{
    let mut made = [0u16; 17];
    made[0] = words[0];
    for k in 0..usize::from(words[0]) {
        made[2 * k + 1] = landing(words[2 * k + 1], east);
        made[2 * k + 2] = landing(words[2 * k + 2], north);
    }
    made
}
