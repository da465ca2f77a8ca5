//! Texts of scripts, read, and the reports of transfers.

ghost use Rattle.std.specs.Prelude.{◌<◌};

use crate::books::noted;
use itoa::Buffer;
use sd_base::Memory;
use sd_model::Told;
use sd_report::{in_order, render};
use sd_script::{Kind, Line, Script};
use std::alloc::Global;

/// What a text repeats.
#[derive(Clone, Copy, PartialEq, Eq)]
pub enum Piece {
    /// The four lines of a transfer with a name of its own.
    Transfer,
    /// A line that begins a transaction of a new name.
    Begin,
    /// A line as long in words that has no name.
    Give,
    /// A line that tells the transaction that was begun last.
    Commit,
    /// A line as long in words that has no name.
    Force,
}

/// Makes the text of a script that has this piece so many times, and reads it so many times. What is read stays, so that each
/// reading takes memory of its own. `false` where it isn't read.
pub fn readings(alloc: Global, piece: Piece, times: u32, reads: u32) -> bool {
    let Ok(text) = text(alloc, piece, times) else {
        return false;
    };
    let mut scripts = Vec::new(alloc);
    for _ in 0..reads {
        let Ok(script) = Script::read(alloc, &text, Kind::Replay) else {
            return false;
        };
        if scripts.push(script).is_err() {
            return false;
        }
    }
    true
}

/// Makes a script of so many transfers and the book of them, and renders its report so many times. The reports stay. `false`
/// where there was no memory.
pub fn reports(alloc: Global, transfers: u32, renders: u32) -> bool {
    match transfer_script(alloc, transfers) {
        Some(script) => reports_of(alloc, script.lines(), transfers, renders),
        None => false,
    }
}

fn transfer_script(alloc: Global, transfers: u32) -> Option<Script> {
    let text = text(alloc, Piece::Transfer, transfers).ok()?;
    Script::read(alloc, &text, Kind::Replay).ok()
}

fn reports_of(alloc: Global, lines: &[Line], transfers: u32, renders: u32) -> bool {
    match noted(alloc, transfers) {
        Some(book) => are_rendered(alloc, lines, book.told(), renders),
        None => false,
    }
}

fn are_rendered(alloc: Global, lines: &[Line], entries: Told<'_>, renders: u32) -> bool {
    if !in_order(lines, entries) {
        return false;
    }
    let mut reports = Vec::new(alloc);
    for _ in 0..renders {
        let Ok(report) = render(alloc, lines, entries) else {
            return false;
        };
        if reports.push(report).is_err() {
            return false;
        }
    }
    true
}

fn text(alloc: Global, piece: Piece, times: u32) -> Result<Vec<u8>, Memory> {
    let mut out = Vec::from_slice(alloc, b"complex 4 4 2\n")?;
    if piece == Piece::Commit {
        put_named(&mut out, b"1 begin t", 0, b"\n")?;
    }
    for n in 0..times {
        put_piece(&mut out, piece, n)?;
    }
    Ok(out)
}

fn put_piece(out: &mut Vec<u8>, piece: Piece, n: u32) -> Result<(), Memory> {
    match piece {
        Piece::Transfer => put_transfer(out, n),
        Piece::Begin => put_named(out, b"1 begin t", n, b"\n"),
        Piece::Give => put_word(out, b"1 give 0\n"),
        Piece::Commit => put_named(out, b"commit t", 0, b"\n"),
        Piece::Force => put_word(out, b"1 force\n"),
    }
}

fn put_transfer(out: &mut Vec<u8>, n: u32) -> Result<(), Memory> {
    put_named(out, b"1 begin t", n, b"\n")?;
    put_named(out, b"add t", n, b" 0.0 -5\n")?;
    put_named(out, b"add t", n, b" 0.1 5\n")?;
    put_named(out, b"commit t", n, b"\n")
}

// A line with the name of transaction n, each of as many bytes, which rise.
fn put_named(out: &mut Vec<u8>, front: &[u8], n: u32, back: &[u8]) -> Result<(), Memory> {
    put_word(out, front)?;
    let mut digits = Buffer::new();
    put_word(out, digits.format(u64::from(n) + 10_000).as_bytes())?;
    put_word(out, back)
}

fn put_word(out: &mut Vec<u8>, word: &[u8]) -> Result<(), Memory> {
    out.extend_from_slice(word)?;
    Ok(())
}
