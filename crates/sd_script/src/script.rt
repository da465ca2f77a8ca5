//! A script: the lines that a text reads as.

ghost use Rattle.std.specs.Prelude.{◌≡◌, ℕ, ◌≤◌, ◌⊎◌, List, length, Ok, Err, IfOk, IfErr};
ghost use Rattle.sd_base.specs.declared.refusal.Refusal.TheVariants as refusal;
ghost use Rattle.sd_base.specs.declared.refusal.LineError.{LineError};
ghost use Rattle.sd_script.specs.declared.line.Line.{Line};
ghost use Rattle.sd_script.specs.Text.{lines_of, told_lines};
ghost use Rattle.sd_script.specs.Reading.{IsRead, IsScript, IsBadAt, IsRefusedWith, UnlessMemory};

use crate::Line;
use crate::reader::{LINES, Reader};
use crate::text::first_line;
use sd_base::{LineError, Refusal};
use std::alloc::Global;
use std::cmp;
use std::marker::Model;

/// The bytes of a short line.
const SHORT_LINE: usize = 8;

/// What a script is read for.
#[derive(Clone, Copy, PartialEq, Eq)]
pub enum Kind {
    /// Its lines are done one after another.
    Replay,
}

/// A script. Contracts see the list of its lines.
#[derive(Drop)]
pub struct Script {
    lines: Vec<Line>,
}

impl Model for Script {
    ghost use Rattle.std.specs.Prelude.{List};
    ghost use Rattle.sd_script.specs.declared.line.Line.{Line};

    ghost Value = { List Line };

    ghost view = { λ s. s.lines.items };
}

impl Script {
    /// Reads a whole text. Blank lines, and comments, whose first byte is `#`, are passed over. `BadLine` comes exactly where the
    /// text is no script: it names the first bad line, counted from 1 among all lines, and the first cause that holds of it; a
    /// text without a line to read is bad, by `Order`, one line behind its last. `Memory` comes where there is none. A line has at
    /// most 1,024 bytes without its LF, a text 100,000 lines, those passed over among them, 4,194,304 bytes and 64 table lines.
    pub fn read(alloc: Global, text: &[u8], kind: Kind) -> Result<Script, Refusal>
        // What is read is the script that the text is.
        ensures found { IfOk result (IsScript text.now) }
        // What is refused is bad at that line.
        ensures bad { IfErr result (IsRefusedWith text.now) }
        // A script is read.
        ensures exact { (lines : List Line) → IsScript text.now lines → UnlessMemory result (Ok lines) }
        // A bad line is told, with its cause.
        ensures exact_bad { (n : ℕ) (cause : LineError) → IsBadAt text.now n cause
            → UnlessMemory result (Err (refusal.BadLine n cause)) }
    {
        let (lines, count) = match kind {
            Kind::Replay => read_lines(alloc, text)?,
        };
        if lines.is_empty() {
            return Err(Refusal::BadLine {
                line: count + 1,
                cause: LineError::Order,
            });
        }
        Ok(Script { lines })
    }

    /// Its lines, in their order.
    pub fn lines(&self) -> &[Line]
        ensures { result.now ≡ self.now }
    {
        &self.lines
    }
}

// Reads line after line, to the end of the text, and counts all lines that it has.
fn read_lines(alloc: Global, text: &[u8]) -> Result<(Vec<Line>, u32), Refusal>
    ensures read { IfOk result (λ r. IsRead text.now r.0.items) }
    ensures whole { IfOk result (λ r. length r.0.items ≡ length (told_lines text.now)) }
    ensures count { IfOk result (λ r. r.1 ≡ length (lines_of text.now)) }
    ensures few { IfOk result (λ r. r.1 ≤ 100000) }
    ensures refused { IfErr result (IsRefusedWith text.now) }
{
    let mut reader = Reader::new(alloc, room_for(text));
    let mut rest = text;
    let mut count = 0u32;
    while !rest.is_empty() {
        let (line, after, printed) = first_line(rest);
        reader.read_line(alloc, line, printed, count + 1, text.len() - after.len())?;
        rest = after;
        count += 1;
    }
    Ok((reader.into_lines(), count))
}

// How many lines a reader is to have room for: as many as a text of this length mostly has, so that the list seldom grows.
fn room_for(text: &[u8]) -> usize {
    cmp::min(text.len() / SHORT_LINE, LINES as usize - 1) + 1
}
