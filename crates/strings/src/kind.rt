// The kinds of records, by their numbers.
ghost use Rattle.std.specs.Prelude.{◌≡◌};
ghost use Rattle.strings.specs.Kinds.{kind_number, kind_by};

#[derive(Clone, Copy, Debug, PartialEq, Eq)]
pub enum Kind {
    Write = 0,
    Read = 1,
    Ticks = 2,
    Tachometer = 3,
    Pin = 4,
    WriteWord = 5,
    Pulse = 6,
}

impl Kind {
    pub fn number(self) -> u32
        ensures { result ≡ kind_number self }
    {
        self as u32
    }

    // The kind of a number, if there is one.
    pub fn numbered(number: u32) -> Option<Kind>
        ensures { result ≡ kind_by number }
    {
        match number {
            0 => Some(Kind::Write),
            1 => Some(Kind::Read),
            2 => Some(Kind::Ticks),
            3 => Some(Kind::Tachometer),
            4 => Some(Kind::Pin),
            5 => Some(Kind::WriteWord),
            6 => Some(Kind::Pulse),
            _ => None,
        }
    }
}
