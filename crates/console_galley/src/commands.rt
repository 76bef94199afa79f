// The commands that make a galley, drive it, ask for a part of its table, and take its numbers.
ghost use Rattle.std.specs.Prelude.{◌≡◌};
ghost use Rattle.galley_rules.specs.Refusals.{fresh_by as fresh_given, sample_by as sample_given};
ghost use Rattle.galley_rules.specs.Span.{span_refusal, span_rows};
ghost use Rattle.lent.specs.Values.{number};
ghost use Rattle.console_text.specs.Signed.{integer_of, bits_of};
ghost use Rattle.console_outcome.specs.Outcome.{told_of, Tells};
ghost use Rattle.console_galley.specs.Commands.{normal_by, quiet_by, fresh_by, sample_by, galley_from, fresh_told, sample_told, span_told, span_by, dump_told, load_told};

use console_outcome::hand::Hand;
use console_outcome::outcome::{BUFFER_BYTES, Outcome, tell, tell_as};
use console_text::signed::{bits, integer, short};
use galley_rows::tables::Tables;
use galley_rules::{Galley, GalleyRefusal, Sample};
use lent::{Page, after, byte, front, value};

// A signed number of the values.
fn signed(values: &[u32], i: usize) -> i32
    ensures { result ≡ integer_of (number values.now i) }
{
    integer(value(values, i))
}

// The two tables, which stand one after the other: by how many bytes each of them has.
fn tables(bytes: &[u8], normal: u32, quiet: u32) -> Tables<'_>
    ensures { (result.normal.now ≡ normal_by normal bytes.now) × (result.quiet.now ≡ quiet_by normal quiet bytes.now) }
{
    let long = normal as usize;
    Tables {
        normal: front(bytes, long),
        quiet: front(after(bytes, long), quiet as usize),
    }
}

fn fresh_by(values: &[u32]) -> Result<Galley, GalleyRefusal>
    ensures { fresh_given result ≡ fresh_by values.now }
{
    galley::fresh(
        signed(values, 0),
        signed(values, 1),
        value(values, 2) == 1,
        value(values, 3) == 1,
    )
}

pub fn begin(hand: Hand, values: &[u32]) -> Outcome
    ensures { Tells result (fresh_told hand values.now) }
{
    match fresh_by(values) {
        Ok(galley) => tell(hand.with_galley(galley), &[0]),
        Err(refusal) => tell(
            hand.with_galley(galley::zero_galley()),
            &[u32::from(refusal.number())],
        ),
    }
}

fn sample_by(hand: Hand, values: &[u32], bytes: &[u8]) -> Result<Sample, GalleyRefusal>
    ensures { sample_given hand.galley hand.state result ≡ sample_by hand values.now bytes.now }
{
    let tables = tables(bytes, value(values, 1), value(values, 2));
    galley::sample(
        hand.galley,
        hand.state,
        signed(values, 0),
        tables.normal,
        tables.quiet,
    )
}

pub fn sample(hand: Hand, values: &[u32], bytes: &[u8]) -> Outcome
    ensures { Tells result (sample_told hand values.now bytes.now) }
{
    match sample_by(hand, values, bytes) {
        Ok(sample) => tell(
            hand.with_state(sample.state).with_galley(sample.galley),
            &[0, u32::from(sample.alert), u32::from(sample.shutdown)],
        ),
        Err(refusal) => tell(hand, &[u32::from(refusal.number()), 0, 0]),
    }
}

// A part of the table in force, none where it is refused, with the refusal's number: both are printed, whichever it is.
fn part<'a>(galley: Galley, first: u32, end: u32, tables: Tables<'a>) -> (u32, &'a [u8])
    ensures number { result.0 ≡ span_refusal galley first end tables.entry.normal.now tables.entry.quiet.now }
    ensures rows { result.1.now ≡ span_rows galley first end tables.entry.normal.now tables.entry.quiet.now }
{
    match galley::rows(galley, first, end, tables.normal, tables.quiet) {
        Ok(rows) => (0, rows),
        Err(refusal) => (u32::from(refusal.number()), b"".as_slice()),
    }
}

fn span_of(
    hand: Hand,
    first: u32,
    end: u32,
    tables: Tables,
    buffer: &mut [u8; BUFFER_BYTES],
) -> Outcome
    ensures { told_of result buffer.new ≡ span_told hand first end tables.entry.normal.now tables.entry.quiet.now }
{
    let (refusal, rows) = part(hand.galley, first, end, tables);
    let mut page = Page {
        bytes: buffer,
        at: 0,
    };
    page.put(rows);
    tell_as(hand, &[refusal], false, Some(page.at))
}

pub fn span(hand: Hand, values: &[u32], bytes: &[u8], buffer: &mut [u8; BUFFER_BYTES]) -> Outcome
    ensures { told_of result buffer.new ≡ span_by hand values.now bytes.now }
{
    let tables = tables(bytes, value(values, 2), value(values, 3));
    span_of(hand, value(values, 0), value(values, 1), tables, buffer)
}

// The 32 bits of a temperature.
fn temperature(eighths: i16) -> u32
    ensures { result ≡ bits_of eighths }
{
    bits(i32::from(eighths))
}

pub fn dump(hand: Hand) -> Outcome
    ensures { Tells result (dump_told hand) }
{
    let galley = hand.galley;
    let numbers = [
        u32::from(galley.row),
        temperature(galley.temperature),
        temperature(galley.high),
        temperature(galley.over),
        u32::from(galley.hysteresis),
        u32::from(galley.quiet),
    ];
    tell_as(hand, &numbers, true, None)
}

// A galley made of six numbers.
fn galley_of(values: &[u32]) -> Galley
    ensures { result ≡ galley_from values.now }
{
    Galley {
        row: byte(values, 0),
        temperature: short(value(values, 1)),
        high: short(value(values, 2)),
        over: short(value(values, 3)),
        hysteresis: value(values, 4) == 1,
        quiet: value(values, 5) == 1,
    }
}

pub fn load(hand: Hand, values: &[u32]) -> Outcome
    ensures { Tells result (load_told hand values.now) }
{
    tell(hand.with_galley(galley_of(values)), &[])
}
