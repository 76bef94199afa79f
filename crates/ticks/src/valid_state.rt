// A state that was found valid. Its fields are read where it is: a copy of it would make each jump dearer.
ghost use Rattle.std.specs.Prelude.{◌≡◌, true};
ghost use Rattle.rules.specs.Valid.{valid_of};

use rules::State;

#[derive(Clone, Copy)]
pub struct ValidState {
    pub state: State,
    ghost is_valid: { valid_of state ≡ true },
}
