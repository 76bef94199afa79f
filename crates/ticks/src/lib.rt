// The passing of ticks. No loop counts ticks: each part of the state is worked out at once, whatever their number.
#![tactic(auto)]

ghost use Rattle.std.specs.Prelude.{◌≡◌, ◌-◌, ◌≤◌, true, nat_le};
ghost use Rattle.rules.specs.Basics.{every};
ghost use Rattle.rules.specs.Calls.{answer_by};
ghost use Rattle.rules.specs.Tick.{idle_limit, tick, iterate, ticks_passed};
ghost use Rattle.rules.specs.Make.{each_passed};
ghost use Rattle.laws.proofs.Valid.{few_pulses};
ghost use Rattle.laws.proofs.Waiting.{stood};
ghost use Rattle.laws.proofs.StateTicks.{counting, row_after, timed};

use crate::channel::pass;
use crate::valid_state::ValidState;
use crate::waiting::waited_in;
use device::codes::watchdog_limit;
use device::duty::{conditions, overridden};
use device::valid::valid;
use registers::fields::watchdog_code;
use rules::{Channel, Conditions, Refusal, State, Timer};
use turns::fall;

mod channel;
mod valid_state;
mod waiting;

// Each channel by itself, after the ticks that it waited. Their index and no zip: of `iter_mut().zip(waited)` no invariant can say what was
// written, and a settled jump takes 137 instructions more with it.
fn pass_channels(
    now: Conditions,
    channels: &mut [Channel; 6],
    waited: [u32; 6],
    clock: u32,
    ticks: u32,
)
    requires { (every few_pulses channels.old ≡ true) × (every (λ n. nat_le n ticks) waited ≡ true) }
    ensures { channels.new ≡ stood now ticks clock waited channels.old }
{
    for (i, channel) in channels.iter_mut().enumerate() {
        if !overridden(now, *channel) {
            pass(channel, clock.wrapping_add(waited[i]), ticks - waited[i]);
        }
    }
}

fn is_counting(state: State) -> bool
    ensures { result ≡ counting state }
{
    !((watchdog_code(state.registers.control) == 0) | state.timer.expired)
}

// The idle count at which the watchdog expires.
fn idle_limit(state: State) -> u16
    ensures { result ≡ idle_limit state }
{
    watchdog_limit(watchdog_code(state.registers.control))
}

// What becomes of the timer in a span but for its wait, and in how many of its ticks a channel may move.
#[derive(Clone, Copy)]
struct Span {
    moving: u32,
    timer: Timer,
}

// Where the watchdog expires on the way, that tick is frozen already but for the wait, and so is every later one.
fn span_of(given: ValidState, ticks: u32) -> Span
    ensures { (result.moving ≤ ticks) × (iterate ticks tick given.state ≡ let row = row_after result.moving given.state in let t = result.timer in timed given.state (row.0 - (ticks - result.moving), row.1) t.clock t.idle t.expired t.status) }
{
    let timer = Timer {
        clock: given.state.timer.clock.wrapping_add(ticks),
        ..given.state.timer
    };
    if !is_counting(given.state) {
        return Span {
            moving: ticks,
            timer,
        };
    }
    let limit = idle_limit(given.state);
    let room = limit - timer.idle - 1;
    if ticks <= u32::from(room) {
        return Span {
            moving: ticks,
            timer: Timer {
                idle: timer.idle + ticks as u16,
                ..timer
            },
        };
    }
    Span {
        moving: u32::from(room),
        timer: Timer {
            idle: limit,
            expired: true,
            status: true,
            ..timer
        },
    }
}

// From the tick on in which the watchdog expires, nothing moves but the clock and the wait. That the two kinds of span are apart here costs
// nothing: with one place that calls them, `waited_in` and `pass_channels` would be inlined, and each jump dearer.
fn passed(given: ValidState, ticks: u32) -> State
    ensures { result ≡ iterate ticks tick given.state }
{
    let now = conditions(given.state);
    let span = span_of(given, ticks);
    let before = given.state.timer.clock;
    let mut next = State {
        timer: span.timer,
        ..given.state
    };
    if span.moving == ticks {
        let free = waited_in(now, given, ticks);
        pass_channels(now, &mut next.channels, free.ticks, before, ticks);
        next.timer.wait = free.wait;
        return next;
    }
    let last = waited_in(now, given, span.moving);
    pass_channels(now, &mut next.channels, last.ticks, before, span.moving);
    next.timer.wait = fall(last.wait, ticks - span.moving);
    next
}

// So many ticks pass at once: what the paper calls a jump.
#[tactic(auto, unfolding(rules::specs::Tick::ticks_passed, rules::specs::Tick::iterate))]
pub fn pass_ticks(state: State, ticks: u32) -> Result<State, Refusal>
    ensures { answer_by state result ≡ ticks_passed state ticks }
{
    if !valid(state) {
        return Err(Refusal::StateNotValid);
    }
    if ticks == 0 {
        return Ok(state);
    }
    Ok(passed(ValidState { state }, ticks))
}

// Such calls in turn, each given the state that the one before left: what the paper calls a quiet span. The list would go on after a
// refused call, but none is.
#[tactic(auto, unfolding(rules::specs::Make::each_passed))]
pub fn pass_each(state: State, elapsed: &[u32]) -> Result<State, Refusal>
    ensures { answer_by state result ≡ each_passed state elapsed.now }
{
    if !valid(state) {
        return Err(Refusal::StateNotValid);
    }
    let mut last = state;
    for ticks in elapsed {
        last = pass_ticks(last, *ticks).unwrap_or(last);
    }
    Ok(last)
}
