//! The first bad line of a text: its number, its cause and its bytes.

ghost use Rattle.std.specs.Prelude.{◌≡◌, ◌==◌, ◌∷◌, ◌<◌, length, position, IfOk};
ghost use Rattle.sd_script.specs.Text.{lines_of};
ghost use Rattle.sd_top.specs.FirstBad.{first_of, line_at};

use sd_base::{LineError, Memory};
use std::alloc::Global;

/// The first bad line of a text that is no script.
#[derive(Drop)]
pub struct BadLine {
    /// Its number, counted from 1.
    pub line: u32,
    /// The first cause that holds of it.
    pub cause: LineError,
    /// Its bytes without the LF; none where the text ends too early.
    pub bytes: Vec<u8>,
}

/// A copy of the line of this number, without its LF: of no bytes where the text has no such line. `Memory` comes where there is
/// none for it.
pub(crate) fn copy_line(alloc: Global, text: &[u8], number: u32) -> Result<Vec<u8>, Memory>
    ensures { IfOk result (λ line. line.items ≡ line_at text.now number) }
{
    Ok(Vec::from_slice(alloc, line_in(text, number))?)
}

// The line of this number.
fn line_in(text: &[u8], number: u32) -> &[u8]
    ensures { result.now ≡ line_at text.now number }
{
    let mut rest = text;
    let mut left = number;
    while left > 1 && !rest.is_empty() {
        rest = cut_first(rest).1;
        left -= 1;
    }
    first_in(rest)
}

// The first line of a text, which may have none.
fn first_in(text: &[u8]) -> &[u8]
    ensures { result.now ≡ first_of (lines_of text.now) }
{
    if text.is_empty() {
        text
    } else {
        cut_first(text).0
    }
}

// The first line, and what follows its LF.
fn cut_first(text: &[u8]) -> (&[u8], &[u8])
    requires { 0 < length text.now }
    ensures lines { lines_of text.now ≡ result.0.now ∷ lines_of result.1.now }
    ensures less { length result.1.now < length text.now }
{
    match line_feed(text) {
        Some(end) => (&text[..end], &text[end + 1..]),
        None => (text, &text[text.len()..]),
    }
}

// Where the first LF is.
fn line_feed(text: &[u8]) -> Option<usize>
    ensures { result ≡ position (λ b. b == 10) text.now }
{
    text.iter().position(|b| *b == b'\n')
}
