// A reader over a lent string, which hands out one record at a time. A string stays with its owner: a reader is the lent
// slice and an index in it, as the paper names it (docs/DECISIONS.md), and no iterator, since a string is malformed from some place on.
ghost use Rattle.std.specs.Prelude.{◌≡◌};
ghost use Rattle.strings.specs.Refusals.{found_by};
ghost use Rattle.strings.specs.String.{record_at};

use crate::record::record_at;
use strings::{Found, StringRefusal};

#[derive(Clone, Copy)]
pub struct Reader<'a> {
    pub string: &'a [u8],
    pub at: usize,
}

impl<'a> Reader<'a> {
    // A reader of a string, from an index on.
    pub fn open(string: &'a [u8], at: usize) -> Reader<'a>
        ensures { (result.string ≡ string.entry) × (result.at ≡ at) }
    {
        Reader { string, at }
    }

    // The record that it stands at.
    pub fn next(self) -> Result<Option<Found>, StringRefusal>
        ensures { found_by result ≡ record_at self.entry.string.now self.entry.at }
    {
        record_at(self.string, self.at)
    }

    // The reader at another index: the one that a record gave, to go on after it.
    pub fn moved(self, at: usize) -> Reader<'a>
        ensures { (result.string ≡ self.entry.string) × (result.at ≡ at) }
    {
        Reader { at, ..self }
    }
}

// What a reader hands out that is opened at an index, for a caller that keeps the index itself.
pub fn next_at(string: &[u8], at: usize) -> Result<Option<Found>, StringRefusal>
    ensures { found_by result ≡ record_at string.now at }
{
    Reader::open(string, at).next()
}
