// Why a call of the galley is refused.
ghost use Rattle.std.specs.Prelude.{◌≡◌};
ghost use Rattle.galley_rules.specs.Refusals.{galley_number};

#[derive(Clone, Copy, Debug, PartialEq, Eq)]
pub enum GalleyRefusal {
    StateNotValid = 1,
    NoTable = 20,
    RowsOutside = 21,
    TemperatureOutOfRange = 22,
}

impl GalleyRefusal {
    // The number that stands for it; 0 stands for accepted.
    pub fn number(self) -> u8
        ensures { result ≡ galley_number self }
    {
        self as u8
    }
}
