// The ticks from one clock at which a channel would leave to the next: a power of two up to 128.
ghost use Rattle.std.specs.Prelude.{◌≡◌, ◌+◌, ◌-◌, ◌%◌, ◌^◌, ◌<◌, ltb, Option, None, Some, if◌then◌else◌};
ghost use Rattle.turns.specs.Departures.{up_to};

use std::marker::Model;

// Kept, and seen, as that power.
#[derive(Clone, Copy, PartialEq, Eq, PartialOrd, Ord)]
pub struct Period {
    shift: u8,
}

impl Model for Period {
    ghost use Rattle.std.specs.Prelude.{ℕ, ◌<◌};

    ghost Value = { ℕ };

    ghost view = { λ period. period.shift };

    ghost invariant = { λ period. period.shift < 8 };

    ghost inverse = { λ n. record { shift = n } };
}

impl Period {
    // 2 to the power of a number, up to 7.
    pub fn new(shift: u8) -> Option<Period>
        ensures { result ≡ (if ltb shift 8 then Some shift else None) }
    {
        if shift < 8 {
            Some(Period { shift })
        } else {
            None
        }
    }

    // The power that it is of 2.
    pub fn get(self) -> u8
        ensures { (result ≡ self) × (result < 8) }
    {
        self.shift
    }

    // Of the three bits of a rate code, where the duty rises. With code 0 each clock is a multiple.
    pub fn of_rate(code: u8) -> Period
        ensures { result ≡ code % 8 - 1 }
    {
        Period {
            shift: (code % 8).saturating_sub(1),
        }
    }

    // The ticks from a clock to the next multiple, none from a multiple.
    pub(crate) fn ticks_to(self, clock: u64) -> u8
        ensures { clock + result ≡ up_to (2 ^ self) clock }
    {
        let below = (1u64 << self.shift) - 1;
        (clock.wrapping_neg() & below) as u8
    }
}
