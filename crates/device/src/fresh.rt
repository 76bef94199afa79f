// The state that start begins with and a reset brings back.
ghost use Rattle.std.specs.Prelude.{◌≡◌};
ghost use Rattle.rules.specs.Start.{start_channel, as_at_start};

use rules::{Channel, Registers, StartValues, State, Timer};

fn start_channel(start: StartValues) -> Channel
    ensures { result ≡ start_channel start }
{
    Channel {
        config: start.spinup % 4 * 0x20,
        dynamics: 0x4C,
        target: start.target,
        target_count: 480,
        count: 2047,
        ..Channel::default()
    }
}

// The state as at start, but for the clock and the pin level.
pub fn as_at_start(start: StartValues, clock: u32, pin: bool) -> State
    ensures { result ≡ as_at_start start clock pin }
{
    State {
        channels: [start_channel(start); 6],
        registers: Registers {
            control: 0x20 + start.watchdog % 4 * 2,
            frequency: start.frequency,
            mask2: 0x3F,
            mask1: 0x3F,
            options: 0x45,
        },
        pin,
        start,
        timer: Timer {
            clock,
            ..Timer::default()
        },
    }
}
