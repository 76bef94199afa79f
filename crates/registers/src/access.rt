// What every accepted read or write does besides.
ghost use Rattle.std.specs.Prelude.{◌≡◌};
ghost use Rattle.rules.specs.Calls.{accessed};

use rules::{State, Timer};

// The state after an accepted read or write: the watchdog has been fed.
pub fn accessed(state: State) -> State
    ensures { result ≡ accessed state }
{
    State {
        timer: Timer {
            idle: 0,
            expired: false,
            ..state.timer
        },
        ..state
    }
}
