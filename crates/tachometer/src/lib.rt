// The call that takes a tachometer result.
#![tactic(auto)]

ghost use Rattle.std.specs.Prelude.{◌≡◌, ◌+◌, ◌<◌, min};
ghost use Rattle.rules.specs.State.{results_of, with_results};
ghost use Rattle.rules.specs.Calls.{answer_by};
ghost use Rattle.rules.specs.Tachometer.{stored_count, judged, is_bad, bad_result, result_taken, channel_result, with_result, result_of};

use device::codes::queue_length;
use device::duty::{conditions, output_duty};
use device::valid::valid;
use registers::fields::{monitor_only, queue_code, tachometer_enabled};
use rules::{Channel, ChannelIndex, Conditions, Refusal, Results, State};

fn stored_count(count: u32) -> u16
    ensures { result ≡ stored_count count }
{
    count.min(2047) as u16
}

// Whether a result says anything about the fan.
#[tactic(auto, unfolding(rules::specs::Tachometer::judged))]
fn judged(conditions: Conditions, channel: Channel) -> bool
    ensures { result ≡ judged conditions channel }
{
    let duty = output_duty(conditions, channel);
    !conditions.standby & (channel.spin == 0) & (monitor_only(channel.config) | (0 < duty))
}

// The count ends at 2,047: a fan that has it stands still, or turns too slowly to be measured.
#[tactic(auto, unfolding(rules::specs::Tachometer::is_bad))]
fn is_bad(channel: Channel, stored: u16) -> bool
    ensures { result ≡ is_bad channel stored }
{
    (stored == 2047) | (channel.target_count < stored)
}

// The queue count after one more bad result.
fn one_more(queue: u8) -> u8
    ensures { result ≡ min (queue + 1) 6 }
{
    queue.min(5) + 1
}

fn bad_result(needed: u8, stored: u16, before: Results) -> Results
    ensures { result ≡ bad_result needed stored before }
{
    let queue = one_more(before.queue);
    Results {
        count: stored,
        queue,
        fault: before.fault | (needed <= queue),
    }
}

// What a result makes of those before it: of a tachometer that is enabled or not, judged or not, bad or not, where so many
// bad ones in a row make a fault. Three flags, as the definition `result_taken` has them.
#[tactic(auto, unfolding(rules::specs::Tachometer::result_taken))]
pub fn result_taken(
    enabled: bool,
    is_judged: bool,
    bad: bool,
    needed: u8,
    stored: u16,
    before: Results,
) -> Results
    ensures { result ≡ result_taken enabled is_judged bad needed stored before }
{
    if !enabled {
        return before;
    }
    if !is_judged {
        return Results {
            count: stored,
            ..before
        };
    }
    if bad {
        return bad_result(needed, stored, before);
    }
    Results {
        count: stored,
        queue: 0,
        ..before
    }
}

// A channel has the three beside its other fields, for its 16 bytes (docs/DESIGN.md): here they are put in, and below taken out.
fn with_results(channel: Channel, results: Results) -> Channel
    ensures { result ≡ with_results channel results }
{
    Channel {
        count: results.count,
        queue: results.queue,
        fault: results.fault,
        ..channel
    }
}

fn results_of(channel: Channel) -> Results
    ensures { result ≡ results_of channel }
{
    Results {
        count: channel.count,
        queue: channel.queue,
        fault: channel.fault,
    }
}

#[tactic(auto, unfolding(rules::specs::Tachometer::channel_result))]
fn channel_result(conditions: Conditions, needed: u8, channel: Channel, count: u32) -> Channel
    ensures { result ≡ channel_result conditions needed channel count }
{
    let stored = stored_count(count);
    let enabled = tachometer_enabled(channel.config);
    let is_judged = judged(conditions, channel);
    let bad = is_bad(channel, stored);
    with_results(
        channel,
        result_taken(enabled, is_judged, bad, needed, stored, results_of(channel)),
    )
}

fn with_result(state: State, i: ChannelIndex, count: u32) -> State
    ensures { result ≡ with_result state i count }
{
    let needed = queue_length(queue_code(state.registers.options));
    let mut next = state;
    let channel = &mut next.channels[i.get()];
    *channel = channel_result(conditions(state), needed, *channel, count);
    next
}

// A result of channel 1 to 6: how many clocks of 8,192 Hz were counted.
#[tactic(auto, unfolding(rules::specs::Tachometer::result_of))]
pub fn take_result(state: State, channel: u32, count: u32) -> Result<State, Refusal>
    ensures { answer_by state result ≡ result_of state channel count }
{
    if !valid(state) {
        return Err(Refusal::StateNotValid);
    }
    let i = ChannelIndex::numbered(channel).ok_or(Refusal::NoSuchChannel)?;
    Ok(with_result(state, i, count))
}
