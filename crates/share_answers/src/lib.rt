// Questions 18, 3, 4, 19 and 20, and 5, of a run that is edited in a contractor's name: over the run table, the holders, the shares and the ceilings.
#![tactic(auto)]

ghost use Rattle.std.specs.Prelude.{◌≡◌, ◌+◌, ◌-◌, ◌<◌, ◌≤◌, ltb, leb, length};
ghost use Rattle.refusals.specs.Numbers.{answer_of};
ghost use Rattle.lists.specs.Lists.{all_below};
ghost use Rattle.geometry.specs.Words.{word};
ghost use Rattle.book.specs.Questions.{first_no};
ghost use Rattle.shares.specs.Shares.{sum_below, one, terms, held, free_numbers, unfilled, unfilled_others, terms_right, holder_right, holders_right, holdings_right, shares_right};
ghost use Rattle.shares.specs.Calls.{names_right};
ghost use Rattle.share_answers.specs.inner.Asked.{run_places, named_asked, add_asked, own_asked};

use refusals::Refusal;

// The run table and the three lists that a call in a contractor's name is lent, each as long as stated.
#[derive(Clone, Copy)]
pub struct Lent<'a> {
    pub runs: &'a [u16],
    pub holders: &'a [u8],
    pub shares: &'a [u8],
    pub ceilings: &'a [u8],
    ghost long_runs: { length runs.now ≡ 121 },
    ghost long_holders: { length holders.now ≡ 24 },
    ghost long_shares: { length shares.now ≡ 4 },
    ghost long_ceilings: { length ceilings.now ≡ 4 },
}

// What is left of a share.
fn left_of(share: u8, holding: u32) -> u32
    ensures { (result ≡ share - holding) × (result ≤ 255) }
{
    u32::from(share).saturating_sub(holding)
}

fn holder_right(absent: bool, holder: u8) -> bool
    ensures { result ≡ holder_right absent holder }
{
    if absent { holder == 255 } else { holder < 4 }
}

// Question 3.
fn names_right(contractor: u32, number: u32) -> bool
    ensures { result ≡ names_right contractor number }
{
    contractor < 4 && number < 24
}

impl Lent<'_> {
    // How many runs a contractor holds.
    fn held(&self, contractor: u32) -> u32
        ensures { (result ≡ held self.now.holders.now contractor) × (result ≤ 24) }
    {
        let mut n = 0;
        for holder in self.holders {
            n += u32::from(u32::from(*holder) == contractor);
        }
        n
    }

    // How many run numbers are free.
    fn free_numbers(&self) -> u32
        ensures { (result ≡ free_numbers (run_places self.now.runs.now)) × (result ≤ 24) }
    {
        let mut n = 0;
        for m in 0..24 {
            n += u32::from(self.runs[5 * m] == 0);
        }
        n
    }

    // What is left of all shares.
    fn unfilled(&self) -> u32
        ensures { (result ≡ unfilled self.now.holders.now self.now.shares.now) × (result ≤ 1020) }
    {
        let mut n = 0;
        for c in 0..4 {
            n += left_of(self.shares[c as usize], self.held(c));
        }
        n
    }

    // What is left of the shares of all but one contractor.
    fn unfilled_others(&self, contractor: u32) -> u32
        requires { contractor < 4 }
        ensures { result ≡ unfilled_others self.now.holders.now self.now.shares.now contractor }
    {
        let own = left_of(self.shares[contractor as usize], self.held(contractor));
        self.unfilled() - own
    }

    // No share is above its ceiling.
    fn shares_below(&self) -> bool
        ensures { result ≡ all_below 4 (λ c. leb (word self.now.shares.now c) (word self.now.ceilings.now c)) }
    {
        (0..4).all(|c| self.shares[c] <= self.ceilings[c])
    }

    // All shares together.
    fn promised(&self) -> u32
        ensures { result ≡ sum_below 4 (λ c. word self.now.shares.now c) }
    {
        let mut n = 0;
        for share in self.shares {
            n += u32::from(*share);
        }
        n
    }

    #[tactic(auto, unfolding(shares::specs::Shares::terms_right))]
    fn terms_right(&self) -> bool
        ensures { result ≡ terms_right (terms self.now.shares.now self.now.ceilings.now) }
    {
        self.shares_below() && self.promised() <= 24
    }

    // Each run's holder is a contractor, each absent one's is 255.
    fn holders_right(&self) -> bool
        ensures { result ≡ holders_right (run_places self.now.runs.now) self.now.holders.now }
    {
        (0..24).all(|m| holder_right(self.runs[5 * m] == 0, self.holders[m]))
    }

    fn holding_right(&self, contractor: u32) -> bool
        requires { contractor < 4 }
        ensures { result ≡ leb (held self.now.holders.now contractor) (word self.now.ceilings.now contractor) }
    {
        self.held(contractor) <= u32::from(self.ceilings[contractor as usize])
    }

    // No holding is above its ceiling.
    fn holdings_right(&self) -> bool
        ensures { result ≡ holdings_right (terms self.now.shares.now self.now.ceilings.now) self.now.holders.now }
    {
        (0..4).all(|c| self.holding_right(c))
    }

    // Question 18.
    #[tactic(auto, unfolding(shares::specs::Shares::shares_right))]
    fn shares_right(&self) -> bool
        ensures { result ≡ shares_right (run_places self.now.runs.now) (terms self.now.shares.now self.now.ceilings.now) self.now.holders.now }
    {
        self.terms_right()
            && self.holders_right()
            && self.holdings_right()
            && self.unfilled() <= self.free_numbers()
    }

    // Question 19.
    fn below_ceiling(&self, contractor: u32) -> bool
        requires { contractor < 4 }
        ensures { result ≡ ltb (held self.now.holders.now contractor) (word self.now.ceilings.now contractor) }
    {
        self.held(contractor) < u32::from(self.ceilings[contractor as usize])
    }

    // Question 20.
    fn spares_others(&self, contractor: u32) -> bool
        requires { contractor < 4 }
        ensures { result ≡ ltb (unfilled_others self.now.holders.now self.now.shares.now contractor) (free_numbers (run_places self.now.runs.now)) }
    {
        self.unfilled_others(contractor) < self.free_numbers()
    }

    // Questions 18 and 3.
    #[tactic(auto, unfolding(crate::specs::inner::Asked::named_asked, book::specs::Questions::first_no))]
    fn named_answer(&self, contractor: u32, number: u32) -> Result<(), Refusal>
        ensures { answer_of result ≡ first_no (named_asked (run_places self.now.runs.now) (terms self.now.shares.now self.now.ceilings.now) self.now.holders.now contractor number) }
    {
        if !self.shares_right() {
            return Err(Refusal::SharesDisagree);
        }
        if !names_right(contractor, number) {
            return Err(Refusal::NoSuchNumber);
        }
        Ok(())
    }

    // Questions 18, 3, 4, 19 and 20, of an addition.
    pub fn add_answer(&self, contractor: u32, number: u32) -> Result<(), Refusal>
        ensures { answer_of result ≡ first_no (add_asked (run_places self.now.runs.now) (terms self.now.shares.now self.now.ceilings.now) self.now.holders.now contractor number) }
    {
        self.named_answer(contractor, number)?;
        if self.runs[5 * (number as usize)] != 0 {
            return Err(Refusal::Taken);
        }
        if !self.below_ceiling(contractor) {
            return Err(Refusal::AtTheCeiling);
        }
        if !self.spares_others(contractor) {
            return Err(Refusal::PromisedToOthers);
        }
        Ok(())
    }

    // Questions 18, 3 and 5, of a removal and of a move.
    pub fn own_answer(&self, contractor: u32, number: u32) -> Result<(), Refusal>
        ensures { answer_of result ≡ first_no (own_asked (run_places self.now.runs.now) (terms self.now.shares.now self.now.ceilings.now) self.now.holders.now contractor number) }
    {
        self.named_answer(contractor, number)?;
        let m = number as usize;
        if self.runs[5 * m] == 0 || u32::from(self.holders[m]) != contractor {
            return Err(Refusal::Absent);
        }
        Ok(())
    }
}
