// Why a string is not read to its end, and why a run stops. A call's own refusals are the rules'.
ghost use Rattle.std.specs.Prelude.{◌≡◌};
ghost use Rattle.strings.specs.Refusals.{string_number, run_number};
ghost use Rattle.strings.specs.declared.refusal.RunRefusal.TheVariants.{Call, String};

use rules::Refusal;

#[derive(Clone, Copy, Debug, PartialEq, Eq)]
pub enum StringRefusal {
    StringEnds = 10,
    LongForm = 11,
    NumberTooLarge = 12,
    NoRecord = 13,
}

impl StringRefusal {
    // The number that stands for it.
    pub fn number(self) -> u8
        ensures { result ≡ string_number self }
    {
        self as u8
    }
}

#[derive(Clone, Copy, Debug, PartialEq, Eq)]
pub enum RunRefusal {
    // A call is refused, or the state that the run was handed.
    Call(Refusal),
    String(StringRefusal),
    // The answer buffer is shorter than the string.
    AnswersTooShort,
}

impl RunRefusal {
    // The number that stands for it; 0 stands for accepted.
    pub fn number(self) -> u8
        ensures { result ≡ run_number self }
    {
        match self {
            RunRefusal::Call(refusal) => refusal.number(),
            RunRefusal::String(refusal) => refusal.number(),
            RunRefusal::AnswersTooShort => 15,
        }
    }
}

impl From<Refusal> for RunRefusal {
    ghost from_gives = { λ refusal run. run ≡ Call refusal };

    fn from(refusal: Refusal) -> RunRefusal {
        RunRefusal::Call(refusal)
    }
}

impl From<StringRefusal> for RunRefusal {
    ghost from_gives = { λ refusal run. run ≡ String refusal };

    fn from(refusal: StringRefusal) -> RunRefusal {
        RunRefusal::String(refusal)
    }
}
