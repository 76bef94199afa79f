// A span of rows: that part of the table in force.
ghost use Rattle.std.specs.Prelude.{◌≡◌, [], MatchResult};
ghost use Rattle.rules.specs.Calls.{accepted};
ghost use Rattle.galley_rules.specs.Span.{span_refusal, span_rows};
ghost use Rattle.galley_rules.specs.Refusals.{galley_number};

use galley_rows::tables::Tables;
use galley_rows::valid::valid;
use galley_rules::{Galley, GalleyRefusal};

// The rows from the first on, the end left out: the part of the table in force, which stays with its owner.
#[tactic(auto, unfolding(galley_rules::specs::Span::span_refusal, galley_rules::specs::Span::span_rows))]
pub fn rows<'a>(
    galley: Galley,
    first: u32,
    end: u32,
    normal: &'a [u8],
    quiet: &'a [u8],
) -> Result<&'a [u8], GalleyRefusal>
    ensures number { MatchResult result (λ _. span_refusal galley first end normal.now quiet.now ≡ accepted) (λ refusal. galley_number refusal ≡ span_refusal galley first end normal.now quiet.now) }
    ensures rows { MatchResult result (λ rows. rows.now ≡ span_rows galley first end normal.now quiet.now) (λ _. span_rows galley first end normal.now quiet.now ≡ []) }
{
    if !valid(galley) {
        return Err(GalleyRefusal::StateNotValid);
    }
    let tables = Tables { normal, quiet };
    if !tables.are_whole() {
        return Err(GalleyRefusal::NoTable);
    }
    tables
        .in_force(galley.quiet)
        .get(first as usize..end as usize)
        .ok_or(GalleyRefusal::RowsOutside)
}

// Why a span cannot be handed out, or 0.
pub fn span_refusal(galley: Galley, first: u32, end: u32, normal: &[u8], quiet: &[u8]) -> u8
    ensures { result ≡ span_refusal galley first end normal.now quiet.now }
{
    match rows(galley, first, end, normal, quiet) {
        Ok(_) => 0,
        Err(refusal) => refusal.number(),
    }
}

// The same rows, for a caller that asks for no refusal: an empty part where the span is refused.
pub fn span_rows<'a>(
    galley: Galley,
    first: u32,
    end: u32,
    normal: &'a [u8],
    quiet: &'a [u8],
) -> &'a [u8]
    ensures { result.now ≡ span_rows galley first end normal.now quiet.now }
{
    match rows(galley, first, end, normal, quiet) {
        Ok(rows) => rows,
        Err(_) => &normal[..0],
    }
}
