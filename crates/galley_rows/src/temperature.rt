// Temperatures, in signed eighths of a degree, and the rows that they stand for.
ghost use Rattle.std.specs.Prelude.{◌≡◌, ◌-◌, ◌/◌, ◌≤◌, min, pos, ◌+ℤ◌, if◌then◌else◌};
ghost use Rattle.std.specs.Int.Signed.{lt_z};
ghost use Rattle.galley_rules.specs.Temperature.{in_range, row_of};
ghost use Rattle.galley_rules.specs.Galley.{eighths_of};
ghost use Rattle.galley_rules.specs.Sample.{row_after};

use galley_rules::GalleyRefusal;

const LOWEST: i32 = -1024;

const HIGHEST: i32 = 1023;

pub const LAST_ROW: u8 = 47;

// Rows are two degrees high, which is 16 eighths; the first ends at 18 degrees, with the ninth step.
const STEP: u32 = 16;

const FIRST_STEPS: u32 = 8;

#[tactic(auto, unfolding(galley_rules::specs::Temperature::in_range))]
pub fn in_range(t: i32) -> bool
    ensures { result ≡ in_range t }
{
    (LOWEST..=HIGHEST).contains(&t)
}

// A temperature in range, as a galley holds it.
pub fn taken(t: i32) -> Result<i16, GalleyRefusal>
    ensures { result ≡ (if in_range t then Ok t else Err GalleyRefusal.TemperatureOutOfRange) }
{
    if !in_range(t) {
        return Err(GalleyRefusal::TemperatureOutOfRange);
    }
    Ok(t as i16)
}

pub fn is_above(t: i32, threshold: i16) -> bool
    ensures { result ≡ lt_z threshold t }
{
    i32::from(threshold) < t
}

// The row of a temperature that is not below 0.
fn row_from_zero(n: u32) -> u8
    ensures { result ≡ min (n / 16 - 8) 47 }
{
    (n / STEP)
        .saturating_sub(FIRST_STEPS)
        .min(u32::from(LAST_ROW)) as u8
}

// The row of a temperature and so many eighths more: of one below 0 it is the first.
fn row_of(t: i32, more: u32) -> u8
    requires { more ≤ 32 }
    ensures { result ≡ row_of (t +ℤ pos more) }
{
    match u32::try_from(t) {
        Ok(n) => row_from_zero(n + more),
        Err(_) => 0,
    }
}

fn eighths(hysteresis: bool) -> u32
    ensures { (result ≡ eighths_of hysteresis) × (result ≤ 32) }
{
    if hysteresis { 32 } else { 16 }
}

// The row after a sample: a row between the sample's own and the one with the hysteresis stays.
#[tactic(auto, unfolding(galley_rules::specs::Sample::row_after))]
pub fn row_after(row: u8, t: i32, hysteresis: bool) -> u8
    ensures { result ≡ row_after row t (eighths_of hysteresis) }
{
    row.min(row_of(t, eighths(hysteresis))).max(row_of(t, 0))
}
