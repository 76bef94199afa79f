// The channels that wait to leave ramp value 0, as `turns` asks for them.
ghost use Rattle.std.specs.Prelude.{◌≡◌, true, not, map, nat_le};
ghost use Rattle.rules.specs.Basics.{every};
ghost use Rattle.rules.specs.Duty.{conditions_of};
ghost use Rattle.turns.specs.Turns.{ticks_waited};
ghost use Rattle.laws.proofs.Waiting.{waits, above_zero, start_shift, stood};
ghost use Rattle.laws.proofs.StateTicks.{row_after};
ghost use Rattle.ticks.specs.Waiters.{waiter_of, turned};

use crate::valid_state::ValidState;
use device::codes::start_delay;
use device::duty::{overridden, wanted};
use registers::fields::{delay_code, rate_code, spin_code};
use rules::{Channel, Conditions, State};
use turns::{Period, Turns, Waiter, fall};

// Whether a channel stands at ramp value 0 below its target, and only its period and the shared wait keep it there.
#[tactic(auto, unfolding(laws::proofs::Waiting::waits))]
fn waits(now: Conditions, channel: Channel) -> bool
    ensures { result ≡ waits now channel }
{
    channel.ramp == 0 && 0 < wanted(channel) && !overridden(now, channel)
}

// The multiples of its period are the clocks at which it leaves: by a spin-up and with rate code 0 each of them.
#[tactic(auto, unfolding(laws::proofs::Waiting::start_shift))]
fn start_period(channel: Channel) -> Period
    ensures { result ≡ start_shift channel }
{
    if 0 < spin_code(channel.config) {
        return Period::of_rate(0);
    }
    Period::of_rate(rate_code(channel.dynamics))
}

fn waiter_of(now: Conditions, channel: Channel) -> Waiter
    ensures { result ≡ waiter_of now channel }
{
    if waits(now, channel) {
        Waiter::Waits(start_period(channel))
    } else {
        Waiter::Left(0)
    }
}

fn waiters_of(now: Conditions, channels: [Channel; 6]) -> [Waiter; 6]
    ensures { result ≡ map (waiter_of now) channels }
{
    channels.map(|channel| waiter_of(now, channel))
}

// One look at the six ramp values.
fn none_at_zero(state: State) -> bool
    ensures { result ≡ every above_zero state.channels }
{
    state.channels.iter().all(|channel| channel.ramp != 0)
}

// Each channel is asked.
fn each_stays(now: Conditions, state: State) -> bool
    ensures { result ≡ every (λ ch. not (waits now ch)) state.channels }
{
    state.channels.iter().all(|channel| !waits(now, *channel))
}

// Mostly no fan stands still, and the one look suffices.
fn none_waits(now: Conditions, state: State) -> bool
    ensures { result ≡ every (λ ch. not (waits now ch)) state.channels }
{
    none_at_zero(state) || each_stays(now, state)
}

fn ticks_waited(waiter: Waiter, ticks: u32) -> u32
    ensures { result ≡ ticks_waited ticks waiter }
{
    match waiter {
        Waiter::Waits(_) => ticks,
        Waiter::Left(past) => past,
    }
}

fn waited_of(waiters: [Waiter; 6], ticks: u32) -> [u32; 6]
    ensures { result ≡ map (ticks_waited ticks) waiters }
{
    waiters.map(|waiter| ticks_waited(waiter, ticks))
}

fn turns_of(now: Conditions, state: State, ticks: u32) -> Turns
    ensures { result ≡ turned state ticks now }
{
    let turns = Turns {
        wait: state.timer.wait,
        waiters: waiters_of(now, state.channels),
    };
    turns.after(
        start_delay(delay_code(state.registers.options)),
        state.timer.clock,
        ticks,
    )
}

// The wait after so many ticks, and the ticks that each channel waited.
#[derive(Clone, Copy)]
pub struct Waited {
    pub wait: u16,
    pub ticks: [u32; 6],
}

// Under the overrides of now. Each channel then goes by itself after the ticks that it waited; mostly none waits.
pub fn waited_in(now: Conditions, given: ValidState, ticks: u32) -> Waited
    requires { now ≡ conditions_of given.state }
    ensures { ((result.wait, stood now ticks given.state.timer.clock result.ticks given.state.channels) ≡ row_after ticks given.state) × (every (λ n. nat_le n ticks) result.ticks ≡ true) }
{
    if none_waits(now, given.state) {
        return Waited {
            wait: fall(given.state.timer.wait, ticks),
            ticks: [0; 6],
        };
    }
    let turns = turns_of(now, given.state, ticks);
    Waited {
        wait: turns.wait,
        ticks: waited_of(turns.waiters, ticks),
    }
}
