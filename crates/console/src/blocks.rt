// The input, block by block, and the output, gathered until the program waits for more input.
ghost use Rattle.std.specs.Prelude.{◌≡◌, ◌+◌, ◌≤◌, IfOk};
ghost use Rattle.console.specs.Answers.{longest_answer};
ghost use Rattle.console.specs.declared.blocks.TheConstants.{LINE_ROOM, BLOCK_BYTES};

use crate::lines::answer;
use console_outcome::hand::Hand;
use console_text::gathered::Gathered;
use lent::Page;
use std::io;
use std::io::{Read, Write};

// No answer is longer than this.
const LONGEST_ANSWER: usize = 43079;

const BLOCK_BYTES: usize = 65536;

// Room for a line that is a call and a carriage return at its end.
const LINE_ROOM: usize = 4097;

// What goes from one line to the next: what is in hand, how many lines have ended, the line that has not, and the answers that are
// not yet written, so many bytes: no `Page`, which would be lent from the struct that holds it.
#[derive(Drop)]
struct Progress {
    hand: Hand,
    lines: u32,
    line: [u8; LINE_ROOM],
    gathered: Gathered,
    out: [u8; BLOCK_BYTES],
    at: usize,
    ghost line_within: { gathered.kept ≤ LINE_ROOM },
    ghost answers_within: { at ≤ BLOCK_BYTES },
}

impl Progress {
    // "Before the first `start` or `load` the state in hand is the one that a refused start gives"; "before the first `gfresh` or
    // `gload` it is the one that a refused fresh call gives": all of it is 0.
    fn begin() -> Progress
        ensures { (result.gathered.kept ≡ 0) × (result.gathered.total ≡ 0) × (result.at ≡ 0) }
    {
        Progress {
            hand: Hand::default(),
            lines: 0,
            line: [0; LINE_ROOM],
            gathered: Gathered::default(),
            out: [0; BLOCK_BYTES],
            at: 0,
        }
    }

    // Writes the answers so far.
    fn flush<W: Write>(&mut self, output: &mut W) -> io::Result<()>
        ensures written { IfOk result (λ _. self.new.at ≡ 0) }
        ensures others { (self.new.hand ≡ self.old.hand) × (self.new.lines ≡ self.old.lines) × (self.new.line ≡ self.old.line) × (self.new.gathered ≡ self.old.gathered) × (self.new.out ≡ self.old.out) }
    {
        output.write_all(&self.out[..self.at])?;
        self.at = 0;
        Ok(())
    }

    // Writes the answers so far where there may be no room for another.
    fn make_room<W: Write>(&mut self, output: &mut W) -> io::Result<()>
        ensures room { IfOk result (λ _. self.new.at + longest_answer ≤ BLOCK_BYTES) }
        ensures others { (self.new.hand ≡ self.old.hand) × (self.new.lines ≡ self.old.lines) × (self.new.line ≡ self.old.line) × (self.new.gathered ≡ self.old.gathered) × (self.new.out ≡ self.old.out) }
    {
        if BLOCK_BYTES - LONGEST_ANSWER < self.at {
            self.flush(output)?;
        }
        Ok(())
    }

    // Answers the line, which has ended.
    fn end_line<W: Write>(&mut self, output: &mut W) -> io::Result<()> {
        self.make_room(output)?;
        self.lines = self.lines.saturating_add(1);
        let mut page = Page {
            bytes: &mut self.out,
            at: self.at,
        };
        self.hand = answer(&mut page, &self.line, self.gathered, self.lines, self.hand);
        self.at = page.at;
        self.gathered = Gathered::default();
        Ok(())
    }

    // Answers the lines that end in a block, and gathers the one that does not.
    fn take_block<W: Write>(&mut self, output: &mut W, block: &[u8]) -> io::Result<()> {
        for piece in block.split_inclusive(|byte| *byte == b'\n') {
            match piece.strip_suffix(b"\n") {
                Some(rest) => {
                    self.gathered.add(rest, &mut self.line);
                    self.end_line(output)?;
                }
                None => self.gathered.add(piece, &mut self.line),
            }
        }
        Ok(())
    }

    // Answers a last line without a line feed.
    fn finish<W: Write>(&mut self, output: &mut W) -> io::Result<()> {
        if 0 < self.gathered.total {
            self.end_line(output)?;
        }
        self.flush(output)
    }
}

// Reads lines from a reader until it ends, and writes their answers to a writer. What has been answered is written before each
// read, so that another program can wait for it.
pub fn run<R: Read, W: Write>(input: &mut R, output: &mut W) -> io::Result<()> {
    let mut block = [0; BLOCK_BYTES];
    let mut progress = Progress::begin();
    // A proved loop has to end, and nothing says that the input does: this is more reads than any run makes.
    for _ in 0..u64::MAX {
        let count = input.read(&mut block)?;
        if count == 0 {
            break;
        }
        progress.take_block(output, &block[..count])?;
        progress.flush(output)?;
    }
    progress.finish(output)
}
