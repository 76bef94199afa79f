// Which of the six channels, as a place in the array of them.
ghost use Rattle.std.specs.Prelude.{◌≡◌, ◌<◌, ltb, Option, None, Some, if◌then◌else◌};
ghost use Rattle.rules.specs.Calls.{numbered};

use std::marker::Model;

#[derive(Clone, Copy)]
pub struct ChannelIndex {
    at: usize,
}

impl Model for ChannelIndex {
    ghost use Rattle.std.specs.Prelude.{ℕ, ◌<◌};

    ghost Value = { ℕ };

    ghost view = { λ index. index.at };

    ghost invariant = { λ index. index.at < 6 };

    ghost inverse = { λ n. record { at = n } };
}

impl ChannelIndex {
    // A place that counts from 0, if there is such a channel.
    pub fn new(at: usize) -> Option<ChannelIndex>
        ensures { result ≡ (if ltb at 6 then Some at else None) }
    {
        if at < 6 {
            Some(ChannelIndex { at })
        } else {
            None
        }
    }

    // The channel of a number that counts from 1, if there is one.
    pub fn numbered(number: u32) -> Option<ChannelIndex>
        ensures { result ≡ numbered number }
    {
        ChannelIndex::new(number.checked_sub(1)? as usize)
    }

    pub fn get(self) -> usize
        ensures { (result ≡ self) × (result < 6) }
    {
        self.at
    }
}
