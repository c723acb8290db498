// The refusals, as document 01 numbers them. specs/Numbers.antt has the same numbers.
#![tactic(auto)]

ghost use Rattle.std.specs.Prelude.{◌≡◌};
ghost use Rattle.refusals.specs.Numbers.{number_of, told};

/// Why a call did not do what it was asked to.
#[derive(Clone, Copy, PartialEq, Eq)]
pub enum Refusal {
    /// More bytes are needed: a message could still begin so.
    Incomplete = 1,
    Malformed = 2,
    MessageTooLong = 3,
    /// An attribute or a child is missing, or a text that is asked for is absent.
    Missing = 4,
    TextTooLong = 5,
    BadValue = 6,
    /// What is to be written does not fit.
    NoRoom = 7,
    MayNotBeSent = 8,
    ProtocolError = 9,
}

impl Refusal {
    /// The number that document 01 gives it.
    pub fn number(self) -> u8
        ensures { result ≡ number_of self }
    {
        self as u8
    }
}

/// The number that an answer tells: 0 where nothing is refused.
pub fn told(answer: Result<(), Refusal>) -> u8
    ensures { result ≡ told answer }
{
    match answer {
        Ok(()) => 0,
        Err(refusal) => refusal.number(),
    }
}
