// What the console has in hand.
ghost use Rattle.std.specs.Prelude.{◌≡◌};
ghost use Rattle.console_outcome.specs.Outcome.{with_state, with_galley};

use galley_rules::Galley;
use rules::State;

#[derive(Clone, Copy, Default)]
pub struct Hand {
    pub state: State,
    pub galley: Galley,
}

impl Hand {
    pub fn with_state(self, state: State) -> Hand
        ensures { result ≡ with_state self state }
    {
        Hand { state, ..self }
    }

    pub fn with_galley(self, galley: Galley) -> Hand
        ensures { result ≡ with_galley self galley }
    {
        Hand { galley, ..self }
    }
}
