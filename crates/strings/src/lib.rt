// The plain types that order strings are read, written and run with. specs/ says what they mean.
#![tactic(auto)]

mod kind;
mod order;
mod partial;
mod refusal;

pub use kind::Kind;
pub use order::Order;
pub use partial::Partial;
pub use refusal::{RunRefusal, StringRefusal};
use rules::{Call, State};

// What a byte makes of a number: what its groups are worth so far, with more to come or as the last.
#[derive(Clone, Copy)]
pub enum Group {
    More(u32),
    Last(u32),
}

// Which number of a record is being read, with the one before it where that is kept. A variant a number, as the definition `number_of` goes by
// them: by kind and place there would be pairs that no record has.
#[derive(Clone, Copy)]
pub enum Stage {
    Kind,
    WriteAddress,
    WriteByte(u32),
    ReadAddress,
    TickCount,
    ResultChannel,
    ResultCount(u32),
    PinLevel,
    WordAddress,
    WordValue(u32),
    PulseChannel,
}

// What a byte makes of a record: more is to come, or it is whole.
#[derive(Clone, Copy)]
pub enum Step {
    More(Partial),
    Whole(Call),
}

// A record that stands in a string: its call, and the index after it.
#[derive(Clone, Copy)]
pub struct Found {
    pub call: Call,
    pub next: usize,
}

// What a run gives, besides the answers in their buffer: why it stopped before the end, if it did; how many records it took, and how
// many answer bytes there are.
#[derive(Clone, Copy)]
pub struct RunAnswer {
    pub outcome: Result<(), RunRefusal>,
    pub taken: u32,
    pub answered: usize,
    pub state: State,
}
