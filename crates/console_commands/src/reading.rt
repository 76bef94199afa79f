// How a line is read, and what is taken of its words.
ghost use Rattle.std.specs.Prelude.{◌≤◌, length};
ghost use Rattle.numbers.specs.Numbers.{number_count};
ghost use Rattle.console_table.specs.Rows.{parameters_in};

use crate::word::{kind_in, put_parameter, split_word, taken};
use crate::{Parsed, Reason};
use console_table::{Asks, Parameters, find};
use console_text::line::count_words;
use lent::Page;
use numbers::STATE_NUMBERS;

// By a row at a place of the table: what the line is if the words after the command can be taken, the parameters that they are, and
// the place of the first of them among all words, counted from 1. There is a number of a state for each, and the first is the second
// word, or the third after `encode`.
#[derive(Clone, Copy)]
pub(crate) struct Reading<'a> {
    pub(crate) place: usize,
    pub(crate) parsed: Parsed,
    pub(crate) parameters: Parameters,
    pub(crate) first: u32,
    pub(crate) words: &'a [u8],
    ghost few: { length (parameters_in parameters) ≤ number_count },
    ghost early: { first ≤ 3 },
}

impl<'a> Reading<'a> {
    ghost use Rattle.std.specs.Prelude.{◌≡◌};
    ghost use Rattle.std.proofs.lemmas.List.Edits.{sets};
    ghost use Rattle.lent.specs.Put.{Puts};
    ghost use Rattle.console_text.specs.Words.{words_of};
    ghost use Rattle.console_commands.specs.Commands.{counted, taken_of, numbers_of, bytes_in, record_of, line_of};
    ghost use Rattle.console_commands.specs.Steps.{line_in, read_by};

    // The words of a line, by the row that the first of them names.
    pub(crate) fn of_line(line: &'a [u8]) -> Result<Reading<'a>, Reason>
        ensures { read_by result ≡ line_of (words_of line.now) }
    {
        let (word, words) = split_word(line).ok_or(Reason::UnknownCommand)?;
        let found = find(word).ok_or(Reason::UnknownCommand)?;
        match found.row.asks {
            Asks::Record => Reading::of_record(words, found.place),
            Asks::For(request) => Ok(Reading {
                place: found.place,
                parsed: Parsed::For(request),
                parameters: found.row.parameters,
                first: 2,
                words,
            }),
        }
    }

    // The words after `encode`, whose row stands at a place of the table.
    fn of_record(line: &'a [u8], place: usize) -> Result<Reading<'a>, Reason>
        ensures { read_by result ≡ record_of place (words_of line.now) }
    {
        let (word, words) = split_word(line).ok_or(Reason::WordCount(place))?;
        let found = find(word).ok_or(Reason::NoRecord)?;
        let kind = kind_in(found.row.asks).ok_or(Reason::NoRecord)?;
        Ok(Reading {
            place: found.place,
            parsed: Parsed::Encode(kind),
            parameters: found.row.parameters.widened(),
            first: 3,
            words,
        })
    }

    // Whether there are as many words as parameters.
    pub(crate) fn is_counted(self) -> bool
        ensures { result ≡ counted (line_in self.entry) }
    {
        count_words(self.words) == self.parameters.count()
    }

    // Takes the values of the words.
    pub(crate) fn take_values(self, values: &mut [u32; STATE_NUMBERS]) -> Result<(), Reason>
        ensures value { let line = line_in self.entry in result ≡ taken_of line.parameters line.first line.words }
        ensures values_after { let line = line_in self.entry in values.new ≡ sets values.old 0 (numbers_of line.parameters line.first line.words) }
    {
        let mut rest = self.words;
        for (i, value) in values.iter_mut().enumerate() {
            let Some(parameter) = self.parameters.get(i) else {
                break;
            };
            let Some((word, after)) = split_word(rest) else {
                break;
            };
            *value = taken(word, parameter, self.first + i as u32)?;
            rest = after;
        }
        Ok(())
    }

    // Puts the bytes of all bytes parameters, one after the other. Only listed parameters have any.
    pub(crate) fn put_strings(self, page: &mut Page)
        ensures { let line = line_in self.entry in Puts (bytes_in line.parameters line.words) page.old page.new }
    {
        let Parameters::Listed(parameters) = self.parameters else {
            return;
        };
        let mut rest = self.words;
        for parameter in parameters {
            let Some((word, after)) = split_word(rest) else {
                break;
            };
            put_parameter(page, word, *parameter);
            rest = after;
        }
    }
}
