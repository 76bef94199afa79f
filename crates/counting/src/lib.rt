// What the counting programs share: what a letter of their input spells, and one call made many times.
#![tactic(auto)]

ghost use Rattle.std.specs.Prelude.{◌≡◌, ◌%◌};
ghost use Rattle.rules.specs.Calls.{answer_by};

use rules::{Refusal, State};

// All that a call gives: nothing of it can be left out as unused.
#[derive(Clone, Copy)]
pub struct Given {
    pub number: u32,
    pub state: State,
}

impl Given {
    // Of a call that may change a state: refused, it gives its number and the state as given.
    pub fn of(state: State, answer: Result<State, Refusal>) -> Given
        ensures { let told = answer_by state answer in (result.number ≡ told.refusal) × (result.state ≡ told.state) }
    {
        match answer {
            Ok(next) => Given {
                number: 0,
                state: next,
            },
            Err(refusal) => Given {
                number: u32::from(refusal.number()),
                state,
            },
        }
    }
}

// A number below 64, as a letter spells it.
pub fn six_bits(letter: u8) -> u32
    ensures { result ≡ letter % 64 }
{
    u32::from(letter % 64)
}

// A call that is made many times. A trait and no closure: who is handed a closure has to ask that it may be called.
pub trait Counted {
    fn call(&self, state: State) -> Given;
}

// Each call from another clock, and a sum of what they give.
pub fn sum_of<C: Counted>(state: State, times: u32, counted: &C) -> u64 {
    let mut next = state;
    let mut sum: u64 = 0;
    for clock in 0..times {
        next.timer.clock = clock;
        let given = counted.call(next);
        sum = sum.wrapping_add(u64::from(given.state.timer.clock));
        sum = sum.wrapping_add(u64::from(given.number));
    }
    sum
}
