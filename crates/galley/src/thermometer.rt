// The temperature in degrees.
ghost use Rattle.std.specs.Prelude.{◌≡◌};
ghost use Rattle.galley_rules.specs.Degrees.{over8, Exactly, temperature_read, degrees_read};
ghost use Rattle.galley_rules.specs.Refusals.{degrees_by};

use galley_rows::valid::valid;
use galley_rules::{Galley, GalleyRefusal};

// An i16 is an f64 without loss, and so is its quotient by a power of two.
fn over_8(t: i16) -> f64
    ensures { result ≡ over8 t }
{
    f64::from(t) / 8.0
}

// The temperature in degrees, exact.
pub fn degrees(galley: Galley) -> Result<f64, GalleyRefusal>
    ensures equal { degrees_by galley result ≡ degrees_read galley }
    ensures exact { Exactly (temperature_read galley) (degrees_by galley result).degrees }
{
    if !valid(galley) {
        return Err(GalleyRefusal::StateNotValid);
    }
    Ok(over_8(galley.temperature))
}
