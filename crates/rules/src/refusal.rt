// Why a call is refused.
ghost use Rattle.std.specs.Prelude.{◌≡◌};
ghost use Rattle.rules.specs.Calls.{number_of};

#[derive(Clone, Copy, Debug, PartialEq, Eq)]
pub enum Refusal {
    StateNotValid = 1,
    NotCarried = 2,
    ReadOnly = 3,
    ConfigNotAllowed = 4,
    NoSuchChannel = 5,
    SpeedOutOfRange = 6,
    StartOutOfRange = 7,
    WrongWidth = 8,
}

impl Refusal {
    // The number that stands for it; 0 stands for accepted. A method and no `From`, since its name says which number it is.
    pub fn number(self) -> u8
        ensures { result ≡ number_of self }
    {
        self as u8
    }
}
