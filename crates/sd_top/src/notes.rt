//! What a person is told of a bad line: which one it is, what is wrong with it, and its bytes. The report says the cause in one word.

ghost use Rattle.std.specs.Prelude.{◌≡◌, ◌<◌, ◌++◌, IfOk, OnErr, OnOk};
ghost use Rattle.sd_top.specs.Notes.{hex_digit, line_shown, note_text, reason, shown, shown_byte};
ghost use Rattle.sd_top.specs.Reporting.{WrittenUnless};

use crate::BadLine;
use crate::output::write_all;
use sd_base::{LineError, Memory, Sink};
use sd_report::{push_counted, push_end, push_word};
use std::alloc::Global;

/// Writes a sentence of the bad line, and under it the line itself, each byte that isn't printed as `\x` and two digits. A sink that fails
/// has a front of it. `Memory` comes where there is none for the text: nothing is written then.
pub fn note_bad_line<K: Sink>(alloc: Global, bad: &BadLine, sink: &mut K) -> Result<(), Memory>
    ensures told { OnOk result (WrittenUnless (record { written = K.written sink.old; faults = K.faults sink.old }) (note_text bad.now)
        (record { written = K.written sink.new; faults = K.faults sink.new })) }
    ensures untold { OnErr result (K.written sink.new ≡ K.written sink.old) }
{
    let text = note_of(alloc, bad)?;
    let _ = write_all(sink, &text);
    Ok(())
}

// The sentence, and the line.
fn note_of(alloc: Global, bad: &BadLine) -> Result<Vec<u8>, Memory>
    ensures { IfOk result (λ text. text.items ≡ note_text bad.now) }
{
    let mut out = Vec::new(alloc);
    push_counted(&mut out, b"sdaries: line ", u64::from(bad.line))
        .and(push_word(&mut out, b" is bad: "))
        .and(push_word(&mut out, reason(bad.cause)))
        .and(push_word(&mut out, b".\n"))
        .and(push_line(&mut out, &bad.bytes))?;
    Ok(out)
}

// The line; nothing where it has no byte.
fn push_line(out: &mut Vec<u8>, bytes: &[u8]) -> Result<(), Memory>
    ensures { OnOk result (out.new.items ≡ out.old.items ++ line_shown bytes.now) }
{
    if bytes.is_empty() {
        return Ok(());
    }
    push_word(out, b"    ")
        .and(push_shown(out, bytes))
        .and(push_end(out))
}

// What is wrong with a line of this cause.
fn reason(cause: LineError) -> &'static [u8]
    ensures { result.now ≡ reason cause }
{
    match cause {
        LineError::Size => b"it is too long, or the script has too many lines, bytes or tables",
        LineError::Byte => b"it has a byte that is neither a printed one of ASCII nor a space",
        LineError::Order => b"the script begins with one line `complex N P F`, and has no other",
        LineError::Word => b"no line has its words",
        LineError::Number => b"a number in it has not the form of one, or is out of its range",
        LineError::Name => b"a name in it is not a letter and at most 15 letters and digits",
        LineError::Place => b"the complex has no instance or page of a number in it",
        LineError::Used => b"an earlier line has begun a transaction of its name",
        LineError::Unknown => b"no earlier line has begun a transaction of its name",
    }
}

// Appends the bytes as they are shown.
fn push_shown(out: &mut Vec<u8>, bytes: &[u8]) -> Result<(), Memory>
    ensures { OnOk result (out.new.items ≡ out.old.items ++ shown bytes.now) }
{
    let mut rest = bytes;
    while let [byte, after @ ..] = rest {
        push_shown_byte(out, *byte)?;
        rest = after;
    }
    Ok(())
}

// A byte that is printed stands for itself.
fn push_shown_byte(out: &mut Vec<u8>, byte: u8) -> Result<(), Memory>
    ensures { OnOk result (out.new.items ≡ out.old.items ++ shown_byte byte) }
{
    if (b' '..=b'~').contains(&byte) {
        push_word(out, &[byte])
    } else {
        push_word(
            out,
            &[b'\\', b'x', hex_digit(byte / 16), hex_digit(byte % 16)],
        )
    }
}

// The digit of a number below 16.
fn hex_digit(number: u8) -> u8
    requires { number < 16 }
    ensures { result ≡ hex_digit number }
{
    if number < 10 {
        b'0' + number
    } else {
        b'a' + (number - 10)
    }
}
