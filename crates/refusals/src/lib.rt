// Why a call is refused: the question that is answered no. C is told its number, and 0 where nothing is refused.
#![tactic(auto)]

ghost use Rattle.std.specs.Prelude.{◌≡◌};
ghost use Rattle.refusals.specs.Numbers.{number_of, answer_of};

// One for each question of the rules, in the order of their numbers.
#[derive(Clone, Copy, Debug, PartialEq, Eq)]
pub enum Refusal {
    WrongLengths,
    WrongRecords,
    NoSuchNumber,
    Taken,
    Absent,
    WrongCount,
    OffTheYard,
    NotConvex,
    NoYardFile,
    BrokenRecord,
    OutOfDate,
    TooManyBlocks,
    FigureTooHigh,
    SharesDisagree,
    AtTheCeiling,
    PromisedToOthers,
    StepTooLong,
    CornerOffTheYard,
}

impl Refusal {
    // The number of its question.
    pub fn number(self) -> u32
        ensures { result ≡ number_of self }
    {
        match self {
            Refusal::WrongLengths => 1,
            Refusal::WrongRecords => 2,
            Refusal::NoSuchNumber => 3,
            Refusal::Taken => 4,
            Refusal::Absent => 5,
            Refusal::WrongCount => 6,
            Refusal::OffTheYard => 7,
            Refusal::NotConvex => 8,
            Refusal::NoYardFile => 9,
            Refusal::BrokenRecord => 10,
            Refusal::OutOfDate => 11,
            Refusal::TooManyBlocks => 12,
            Refusal::FigureTooHigh => 13,
            Refusal::SharesDisagree => 18,
            Refusal::AtTheCeiling => 19,
            Refusal::PromisedToOthers => 20,
            Refusal::StepTooLong => 21,
            Refusal::CornerOffTheYard => 22,
        }
    }
}

// What C is told of a call.
pub fn answer(outcome: Result<(), Refusal>) -> u32
    ensures { result ≡ answer_of outcome }
{
    match outcome {
        Ok(()) => 0,
        Err(refusal) => refusal.number(),
    }
}
