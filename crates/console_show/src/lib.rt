// `show`: the state for a person to read. Each text promises a frame: what stands before it stays, and how long it is at most.
#![tactic(auto)]

ghost use Rattle.console_text.specs.Frame.{Frame};

use console_form::{put_either, put_form, put_seconds, put_text, put_valid};
use device::codes::{ends_early, start_delay, watchdog_limit};
use device::duty::{conditions, output_duty, overridden, wanted};
use device::valid::valid;
use fan_fail::fan_fail;
use lent::Page;
use registers::fields::{delay_code, range_code, tachometer_enabled, watchdog_code};
use rules::{Channel, Conditions, Failed, Refusal, Speed, State, Timer};
use speed::speed;

fn put_watchdog(page: &mut Page, limit: u16, timer: Timer)
    ensures { Frame 52 page.old page.new }
{
    if limit == 0 {
        put_text(page, b"watchdog  off");
    } else if timer.expired {
        put_text(page, b"watchdog  expired");
    } else {
        put_form(
            page,
            b"watchdog  counting, # of # ticks",
            &[u32::from(timer.idle), u32::from(limit)],
        );
    }
}

// Whether the state is valid, the clock, and the watchdog with its status bit.
fn put_timer(page: &mut Page, state: State)
    ensures { Frame 148 page.old page.new }
{
    let timer = state.timer;
    let limit = watchdog_limit(watchdog_code(state.registers.control));
    put_valid(page, valid(state));
    put_seconds(page, b"clock     ", timer.clock);
    put_watchdog(page, limit, timer);
    put_either(
        page,
        timer.status,
        b", status bit set\n",
        b", status bit clear\n",
    );
}

fn put_fan_fail(page: &mut Page, answer: Result<Option<Failed>, Refusal>)
    ensures { Frame 70 page.old page.new }
{
    match answer {
        Ok(Some(failed)) => put_form(
            page,
            b"FAN_FAIL  asserted, # failed, lowest is channel #\n",
            &[failed.count, failed.lowest],
        ),
        Ok(None) => put_text(page, b"FAN_FAIL  not asserted\n"),
        Err(_) => put_text(page, b"FAN_FAIL  not known: the query refuses the state\n"),
    }
}

// The standby bit, and the two pins.
fn put_pins(page: &mut Page, state: State, standby: bool)
    ensures { Frame 124 page.old page.new }
{
    put_either(page, standby, b"standby   yes\n", b"standby   no\n");
    put_either(
        page,
        state.pin,
        b"pin       FULL_SPEED is high\n",
        b"pin       FULL_SPEED is low: full speed\n",
    );
    put_fan_fail(page, fan_fail(state));
}

// Of which modification the box is. `load` can give it any number.
fn put_modification(page: &mut Page, modification: u8)
    ensures { Frame 77 page.old page.new }
{
    if 1 < modification {
        put_form(
            page,
            b"box       modification #: neither A, which is 0, nor B, which is 1\n",
            &[u32::from(modification)],
        );
    } else {
        put_either(
            page,
            ends_early(modification),
            b"box       modification B: spin-up ends with the second pulse\n",
            b"box       modification A: spin-up lasts its whole time\n",
        );
    }
}

// How many ticks apart fans start, and how many are left until the next one may.
fn put_starts(page: &mut Page, delay: u16, wait: u16)
    ensures { Frame 55 page.old page.new }
{
    if delay == 0 && wait == 0 {
        put_text(page, b"starts    no delay, no wait\n");
    } else {
        put_form(
            page,
            b"starts    # ticks apart, # to wait\n",
            &[u32::from(delay), u32::from(wait)],
        );
    }
}

// The speed of a fan that gives two pulses a revolution, or why there is none: the tachometer is off, or else what the calculation
// answered. A range code has three bits, so it is the count that can be refused.
fn put_speed(page: &mut Page, channel: Channel)
    ensures { Frame 20 page.old page.new }
{
    let range = range_code(channel.dynamics);
    let why = match speed(u32::from(range), 2, u32::from(channel.count)) {
        Ok(Speed::Rpm(rpm)) => return put_form(page, b"  ########", &[rpm]),
        Ok(Speed::Stopped) => b"   stopped",
        Ok(Speed::TooFast) => b"  too fast",
        Err(_) => b" bad count",
    };
    put_either(page, tachometer_enabled(channel.config), why, b"  tach off");
}

// Tenths of a percent of full speed: 511 is the whole, and any other duty counts 512ths.
fn percent_tenths(duty: u16) -> u32 {
    match duty {
        511 => 1000,
        _ => u32::from(duty) * 1000 / 512,
    }
}

// Whether the wait holds a channel back: it has a duty to leave ramp value 0 for, and no override keeps it there. `ticks` asks the same by a
// law of its own, which the console does without.
fn held_back(wait: u16, conditions: Conditions, channel: Channel) -> bool {
    let wants = channel.ramp == 0 && 0 < wanted(channel);
    0 < wait && wants && !overridden(conditions, channel)
}

// The ramp value, or that the channel waits: then it is 0.
fn put_ramp(page: &mut Page, waiting: bool, ramp: u16)
    ensures { Frame 16 page.old page.new }
{
    if waiting {
        put_text(page, b" waits");
    } else {
        put_form(page, b" #####", &[u32::from(ramp)]);
    }
}

fn put_duties(page: &mut Page, number: u32, channel: Channel, waiting: bool, duty: u16)
    ensures { Frame 112 page.old page.new }
{
    let tenths = percent_tenths(duty);
    put_form(
        page,
        b"      #  #####",
        &[number, u32::from(channel.target)],
    );
    put_ramp(page, waiting, channel.ramp);
    put_form(
        page,
        b"  ##### #####.#% #####",
        &[
            u32::from(duty),
            tenths / 10,
            tenths % 10,
            u32::from(channel.count),
        ],
    );
}

// The queue count and the fault bit.
fn put_queue(page: &mut Page, queue: u8, fault: bool)
    ensures { Frame 22 page.old page.new }
{
    let form = if fault {
        b"   ### yes  "
    } else {
        b"   ### no   "
    };
    put_form(page, form, &[u32::from(queue)]);
}

// The remaining ticks of a spin-up and the pulses counted in it, where one runs.
fn put_spin_up(page: &mut Page, spin: u16, pulses: u8)
    ensures { Frame 36 page.old page.new }
{
    if spin == 0 {
        put_text(page, b"       -      -\n");
    } else {
        put_form(
            page,
            b"   #####    ###\n",
            &[u32::from(spin), u32::from(pulses)],
        );
    }
}

fn put_channel(page: &mut Page, number: u32, wait: u16, conditions: Conditions, channel: Channel)
    ensures { Frame 190 page.old page.new }
{
    let duty = output_duty(conditions, channel);
    let waiting = held_back(wait, conditions, channel);
    put_duties(page, number, channel, waiting, duty);
    put_speed(page, channel);
    put_queue(page, channel.queue, channel.fault);
    put_spin_up(page, channel.spin, channel.pulses);
}

fn put_channels(page: &mut Page, state: State)
    ensures { Frame 1299 page.old page.new }
{
    let conditions = conditions(state);
    put_text(
        page,
        b"channels, with the speed at two pulses a revolution and spin-up in ticks left:\nchannel target  ramp output  percent count       rpm queue fault spin-up pulses\n",
    );
    for (i, channel) in state.channels.iter().enumerate() {
        put_channel(page, i as u32 + 1, state.timer.wait, conditions, *channel);
    }
}

// The whole state: the timer, the pins, the modification, the wait, and a table of the channels.
pub fn put_show(page: &mut Page, state: State)
    ensures { Frame 1703 page.old page.new }
{
    let delay = start_delay(delay_code(state.registers.options));
    put_timer(page, state);
    put_pins(page, state, conditions(state).standby);
    put_modification(page, state.start.modification);
    put_starts(page, delay, state.timer.wait);
    put_channels(page, state);
}
