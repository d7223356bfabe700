// The clear straights of a search by rows of bits: the near corners of every mark, and what the two ends see of each other.
#![tactic(auto)]

ghost use Rattle.std.specs.Prelude.{◌≡◌, ◌*◌, ◌<◌, ◌≤◌, length};
ghost use Rattle.row_search.specs.inner.Rows.{Tidy, ByRows, near_word};

use search::Straights;

// The word q of the marks near a settled mark: the corners in its row, three words, and then one for the first end alone.
fn near_word(rows: &[u64], facing: bool, first: usize, mark: usize, q: usize) -> u64
    requires { (length rows.now ≡ 720) × (192 ≤ first) × (first < 240) × (mark < 240) }
    ensures { result ≡ near_word rows.now facing first mark q }
{
    if q < 3 {
        return rows[3 * mark + q];
    }
    if mark < 192 {
        return bits::bit_at(rows[3 * first + mark / 64], (mark % 64) as u32);
    }
    if facing {
        return 1;
    }
    0
}

// Straights by the rows of near corners of every mark, and whether the two ends of the run see each other.
#[derive(Clone, Copy)]
pub struct ByMarkRows<'a> {
    pub rows: &'a [u64],
    pub facing: bool,
}

impl<'a> Straights for ByMarkRows<'a> {
    ghost clear = { λ s. ByRows s.rows.now s.facing };

    ghost told = { λ s blocks first mark. (Tidy blocks s.rows.now) × (192 ≤ first) };

    fn near(&self, _blocks: &[u16], first: usize, mark: usize, q: usize) -> u64 {
        near_word(self.rows, self.facing, first, mark, q)
    }
}
