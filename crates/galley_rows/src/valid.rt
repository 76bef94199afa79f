// Whether a galley's state is valid, which the paper calls sound.
ghost use Rattle.std.specs.Prelude.{◌≡◌};
ghost use Rattle.galley_rules.specs.Galley.{valid_galley};

use crate::temperature::{LAST_ROW, in_range};
use galley_rules::Galley;

#[tactic(auto, unfolding(galley_rules::specs::Galley::valid_galley))]
pub fn valid(galley: Galley) -> bool
    ensures { result ≡ valid_galley galley }
{
    (galley.row <= LAST_ROW)
        & in_range(i32::from(galley.temperature))
        & in_range(i32::from(galley.high))
        & in_range(i32::from(galley.over))
}
