// The numbered refusals, and how a call finds the first that fits.
#![tactic(auto)]

ghost use Rattle.std.specs.Prelude.{◌≡◌, true, false, MatchResult};
ghost use Rattle.refusal.specs.Refusals.{demand};
ghost use Rattle.refusal.specs.Numbers.{number_of, answer_of};

// Why a call is refused. Each has its number.
#[derive(Clone, Copy, Debug, PartialEq, Eq)]
pub enum Refusal {
    TooShort = 1,
    UnknownMark = 2,
    OtherEdition = 3,
    TooMany = 4,
    WrongLength = 5,
    BadField = 6,
    WrongWrites = 7,
    OutOfRange = 8,
    NoReferenceLeft = 9,
    NoFrame = 10,
    NotPinned = 11,
    PinsFull = 12,
    NoRoom = 13,
    NotSound = 14,
    OtherSettings = 15,
    HasPins = 17,
}

impl From<Refusal> for u32 {
    ghost from_gives = { λ refusal number. number ≡ number_of refusal };

    fn from(refusal: Refusal) -> u32 {
        refusal as u32
    }
}

// The number by which C and a report tell an answer: 0, or the refusal's.
pub fn answer_of(answer: Result<(), Refusal>) -> u32
    ensures { result ≡ answer_of answer }
{
    match answer {
        Ok(()) => 0,
        Err(refusal) => u32::from(refusal),
    }
}

// A demand that is met, or its refusal: with `?`, demands written one after the other are checked in that order.
pub fn demand(met: bool, refusal: Refusal) -> Result<(), Refusal>
    ensures first { MatchResult result (λ _. met ≡ true) (λ e. (met ≡ false) × (e ≡ refusal)) }
    ensures answer { answer_of result ≡ demand met (number_of refusal) 0 }
{
    if met { Ok(()) } else { Err(refusal) }
}
