// A fresh galley.
ghost use Rattle.std.specs.Prelude.{◌≡◌};
ghost use Rattle.galley_rules.specs.Galley.{zero_galley, fresh_of};
ghost use Rattle.galley_rules.specs.Refusals.{fresh_by};

use galley_rows::temperature::taken;
use galley_rules::{Galley, GalleyRefusal};

// The galley in hand after a refused fresh: of fresh's result, `unwrap_or_default` gives it.
pub fn zero_galley() -> Galley
    ensures { result ≡ zero_galley }
{
    Galley::default()
}

// A galley at row 0 and temperature 0, with its two thresholds, its hysteresis bit and the flag of its quiet table.
#[tactic(auto, unfolding(galley_rules::specs::Galley::fresh_of))]
pub fn fresh(high: i32, over: i32, hysteresis: bool, quiet: bool) -> Result<Galley, GalleyRefusal>
    ensures { fresh_by result ≡ fresh_of high over hysteresis quiet }
{
    Ok(Galley {
        high: taken(high)?,
        over: taken(over)?,
        hysteresis,
        quiet,
        ..Galley::default()
    })
}
