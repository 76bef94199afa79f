// What has been read of a record.
ghost use Rattle.std.specs.Prelude.{◌≡◌};
ghost use Rattle.strings.specs.Record.{begun};

use crate::Stage;
use std::marker::Model;

// The stage, and of its number so many groups, and what they are worth: at most four groups, and no more than they can be worth.
#[derive(Clone, Copy)]
pub struct Partial {
    pub stage: Stage,
    pub groups: u8,
    pub value: u32,
}

impl Model for Partial {
    ghost use Rattle.strings.specs.Partial.{Partial, partial, HalfRead};

    ghost Value = { Partial };

    ghost view = { λ p. partial p.stage p.groups p.value };

    ghost invariant = { λ p. HalfRead (partial p.stage p.groups p.value) };

    ghost inverse = { λ p. record { stage = p.stage; groups = p.groups; value = p.value } };
}

impl Partial {
    // A stage whose number has not begun.
    pub fn begun(stage: Stage) -> Partial
        ensures { result ≡ begun stage }
    {
        Partial {
            stage,
            groups: 0,
            value: 0,
        }
    }
}
