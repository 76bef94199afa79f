// What the codes of the registers stand for. Where there is no limit, time or delay the definitions give 0 and no `None` (`watchdog_limit`,
// `spin_ticks`, `start_delay`), since the rules compare and count with it. Each is one lookup, so a
// function over the table would make none of them shorter.
ghost use Rattle.std.specs.Prelude.{◌≡◌, ◌%◌, ◌^◌, ◌≤◌};
ghost use Rattle.rules.specs.Time.{watchdog_limit, spin_ticks, start_delay, ends_early, rate_period};
ghost use Rattle.rules.specs.Tachometer.{queue_length};

const WATCHDOG_LIMITS: [u16; 4] = [0, 2560, 5120, 15360];

const SPIN_TICKS: [u16; 4] = [0, 256, 512, 1024];

const START_DELAYS: [u16; 8] = [0, 128, 256, 512, 1024, 2048, 2048, 2048];

const QUEUE_LENGTHS: [u8; 4] = [1, 2, 4, 6];

// The periods of rate codes 1 to 7, each by its power of two; code 0 has none, and its entry is not used.
const PERIOD_SHIFTS: [u32; 8] = [0, 0, 1, 2, 3, 4, 5, 6];

// The idle ticks after which the watchdog expires, 0 where it is off.
#[tactic(auto, unfolding(rules::specs::Time::watchdog_limit))]
pub fn watchdog_limit(code: u8) -> u16
    ensures { result ≡ watchdog_limit code }
{
    WATCHDOG_LIMITS.get(usize::from(code)).copied().unwrap_or(0)
}

// How long a spin-up lasts, 0 where there is none.
#[tactic(auto, unfolding(rules::specs::Time::spin_ticks))]
pub fn spin_ticks(code: u8) -> u16
    ensures { result ≡ spin_ticks code }
{
    SPIN_TICKS.get(usize::from(code)).copied().unwrap_or(0)
}

// How long after a channel has left ramp value 0 no other may.
#[tactic(auto, unfolding(rules::specs::Time::start_delay))]
pub fn start_delay(code: u8) -> u16
    ensures { result ≡ start_delay code }
{
    START_DELAYS.get(usize::from(code)).copied().unwrap_or(0)
}

// Whether spin-up ends when the fan turns: modification B.
pub fn ends_early(modification: u8) -> bool
    ensures { result ≡ ends_early modification }
{
    modification == 1
}

// How many bad results in a row make a fault.
#[tactic(auto, unfolding(rules::specs::Tachometer::queue_length))]
pub fn queue_length(code: u8) -> u8
    ensures { result ≡ queue_length code }
{
    QUEUE_LENGTHS.get(usize::from(code)).copied().unwrap_or(0)
}

// The ticks from one step of a ramp to the next, of the three bits of a rate code, as the power of two that they are: a shift by so
// many bits divides by the period.
pub fn period_shift(code: u8, doubled: bool) -> u32
    ensures { (2 ^ result ≡ rate_period (code % 8) doubled) × (result ≤ 7) }
{
    PERIOD_SHIFTS[usize::from(code % 8)] + u32::from(doubled)
}
