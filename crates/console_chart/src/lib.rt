// `chart`: the duties over the next ticks, drawn. Each column is one passing of ticks from the state in hand.
#![tactic(auto)]

ghost use Rattle.std.specs.Prelude.{◌≡◌, ◌∷◌, ◌+◌, ◌≤◌, length};
ghost use Rattle.lent.specs.Put.{Puts};
ghost use Rattle.console_text.specs.Decimal.{padded};
ghost use Rattle.console_chart.specs.Chart.{duty_after, ticks_at, block_of, columns_of, line_of, chart_of, chart_most};

use console_form::{put_seconds, put_valid};
use console_text::decimal::{put_decimal, put_padded};
use device::duty::{conditions, output_duty};
use device::valid::valid;
use lent::Page;
use rules::{ChannelIndex, State};
use ticks::pass_ticks;

#[tactic(auto, using(crate::proofs::Texts::state_told), unfolding(crate::specs::Chart::duty_after))]
fn duty_after(state: State, channel: ChannelIndex, ticks: u32) -> u16
    ensures { result ≡ duty_after state channel ticks }
{
    let after = pass_ticks(state, ticks).unwrap_or(state);
    output_duty(conditions(after), after.channels[channel.get()])
}

// How many ticks have passed at a column.
fn ticks_at(ticks: u32, column: u32) -> u32
    requires { column ≤ 64 }
    ensures { result ≡ ticks_at ticks column }
{
    (u64::from(ticks) * u64::from(column) / 64) as u32
}

#[tactic(auto, unfolding(crate::specs::Chart::block_of))]
fn put_block(page: &mut Page, duty: u16)
    ensures { Puts (block_of duty) page.old page.new }
{
    if duty == 0 {
        page.put(b" ");
    } else {
        page.put(&[0xE2, 0x96, 0x81 + (duty / 64).min(7) as u8]);
    }
}

fn put_columns(page: &mut Page, state: State, channel: ChannelIndex, ticks: u32)
    ensures { Puts (columns_of state channel ticks) page.old page.new }
{
    for column in 1..=64 {
        put_block(page, duty_after(state, channel, ticks_at(ticks, column)));
    }
}

fn put_duty(page: &mut Page, duty: u16)
    ensures { Puts (32 ∷ padded 3 duty) page.old page.new }
{
    page.put(b" ");
    put_padded(page, u32::from(duty), 3);
}

// A channel's line: its number, the duty now, the columns, the duty at the end.
fn put_line(page: &mut Page, state: State, channel: ChannelIndex, ticks: u32)
    ensures { Puts (line_of state ticks (channel + 1)) page.old page.new }
{
    put_decimal(page, channel.get() as u32 + 1);
    put_duty(page, duty_after(state, channel, 0));
    page.put(b" ");
    put_columns(page, state, channel, ticks);
    put_duty(page, duty_after(state, channel, ticks));
    page.put(b"\n");
}

// How the duties go over the next ticks if nothing is sent.
#[tactic(auto, using(crate::proofs::Texts::chart_length), unfolding(crate::specs::Chart::chart_of))]
pub fn put_chart(page: &mut Page, state: State, ticks: u32)
    ensures put { Puts (chart_of state ticks) page.old page.new }
    ensures ticks_len_bound { length (chart_of state ticks) ≤ chart_most }
{
    if !valid(state) {
        return put_valid(page, false);
    }
    put_seconds(page, b"span      ", ticks);
    for at in 0..6 {
        put_line(page, state, ChannelIndex::new(at).unwrap(), ticks);
    }
}
