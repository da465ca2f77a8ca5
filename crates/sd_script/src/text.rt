//! The lines of a text, one after another.

ghost use Rattle.std.specs.Prelude.{◌≡◌, ◌==◌, ◌+◌, ◌<◌, ◌∷◌, min, length, position, ltb, ◌||◌, IsTrue, ◌↔◌};
ghost use Rattle.sd_script.specs.Causes.{ArePrinted};
ghost use Rattle.sd_script.specs.Text.{is_idle, lines_of};

use crate::next_word;

/// The first line of a text without its LF, what follows it, and whether each byte of the line is printed or a space.
pub(crate) fn first_line(text: &[u8]) -> (&[u8], &[u8], bool)
    requires { 0 < length text.now }
    ensures lines { lines_of text.now ≡ result.0.now ∷ lines_of result.1.now }
    ensures bytes { min (length text.now) (length result.0.now + 1) + length result.1.now ≡ length text.now }
    ensures printed { IsTrue result.2 ↔ ArePrinted result.0.now }
{
    match unprinted(text) {
        Some(end) if text[end] == b'\n' => (&text[..end], &text[end + 1..], true),
        Some(_) => {
            let (line, rest) = cut_at_feed(text);
            (line, rest, unprinted(line).is_none())
        }
        None => (text, &text[text.len()..], true),
    }
}

/// Whether the line is blank or a comment.
pub(crate) fn is_idle(line: &[u8]) -> bool
    ensures { result ≡ is_idle line.now }
{
    match line {
        [] => true,
        [first, ..] => *first == b'#' || (*first == b' ' && next_word(line).is_none()),
    }
}

// The first line and what follows it, whatever its bytes are.
fn cut_at_feed(text: &[u8]) -> (&[u8], &[u8])
    requires { 0 < length text.now }
    ensures lines { lines_of text.now ≡ result.0.now ∷ lines_of result.1.now }
    ensures bytes { min (length text.now) (length result.0.now + 1) + length result.1.now ≡ length text.now }
{
    match line_feed(text) {
        Some(end) => (&text[..end], &text[end + 1..]),
        None => (text, &text[text.len()..]),
    }
}

#[inline(never)]
fn line_feed(text: &[u8]) -> Option<usize>
    ensures { result ≡ position (λ b. b == 10) text.now }
{
    text.iter().position(|b| *b == b'\n')
}

// Where the first byte is that isn't printed, nor a space.
#[inline(never)]
fn unprinted(text: &[u8]) -> Option<usize>
    ensures { result ≡ position (λ b. ltb b 32 || ltb 126 b) text.now }
{
    text.iter().position(|b| *b < b' ' || b'~' < *b)
}
