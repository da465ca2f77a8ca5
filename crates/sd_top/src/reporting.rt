//! What is written of a run, and the status that tells it. It doesn't see the run.

ghost use Rattle.std.specs.Prelude.{◌≡◌};
ghost use Rattle.sd_report.specs.Report.{report, AreAbove, AreFrom};
ghost use Rattle.sd_report.specs.Summary.{summary_text};
ghost use Rattle.sd_top.specs.Asking.{last_number, told_by};
ghost use Rattle.sd_top.specs.Reporting.{Delivers, TellsBad, TellsDamaged, TellsUnopened};

use crate::output::write_all;
use crate::status::Status;
use crate::words::Request;
use sd_base::{LineError, Memory, Refusal, Sink};
use sd_model::Book;
use sd_report::{bad_line, damaged_line, render_book, summary};
use sd_script::Line;
use std::alloc::Global;

/// Writes the report of the script's lines by the book: `Done`, or `WriteFault` where the sink failed and has a front of it.
/// Nothing is written where there was no memory.
pub fn report_book<K: Sink>(alloc: Global, lines: &[Line], book: &Book, sink: &mut K) -> Status
    requires lines { AreAbove 0 lines.now }
    requires entries { AreFrom 0 book.now.entries }
    ensures { Delivers result (record { written = K.written sink.old; faults = K.faults sink.old })
        (report lines.now book.now.entries)
        (record { written = K.written sink.new; faults = K.faults sink.new }) }
{
    match render_book(alloc, lines, book) {
        Err(Memory) => Status::NoMemory,
        Ok(text) => deliver(&text, sink),
    }
}

// Writes a text, unless the sink fails.
fn deliver<K: Sink>(text: &[u8], sink: &mut K) -> Status
    ensures { Delivers result (record { written = K.written sink.old; faults = K.faults sink.old }) text.now
        (record { written = K.written sink.new; faults = K.faults sink.new }) }
{
    match write_all(sink, text) {
        Ok(()) => Status::Done,
        Err(_) => Status::WriteFault,
    }
}

/// Writes what was asked for of a run: the report of the script's lines by the book, or the summary of a generated one. `Done`, or
/// `WriteFault` where the sink failed and has a front of it. Nothing is written where there was no memory.
pub fn report_run<K: Sink>(
    alloc: Global,
    asked: Request,
    lines: &[Line],
    book: &Book,
    sink: &mut K,
) -> Status
    requires lines { AreAbove 0 lines.now }
    requires entries { AreFrom 0 book.now.entries }
    ensures { Delivers result (record { written = K.written sink.old; faults = K.faults sink.old })
        (told_by asked lines.now book.now.entries)
        (record { written = K.written sink.new; faults = K.faults sink.new }) }
{
    match asked {
        Request::Replay => report_book(alloc, lines, book, sink),
        Request::Gen { number, count } => report_summary(alloc, number, count, lines, book, sink),
    }
}

// Writes the summary of the script that the number gave with so many transfers.
fn report_summary<K: Sink>(
    alloc: Global,
    number: u64,
    count: u32,
    lines: &[Line],
    book: &Book,
    sink: &mut K,
) -> Status
    ensures { Delivers result (record { written = K.written sink.old; faults = K.faults sink.old })
        (summary_text number count (last_number lines.now) book.now.entries)
        (record { written = K.written sink.new; faults = K.faults sink.new }) }
{
    match summary(alloc, number, count, number_of_last(lines), book) {
        Err(Memory) => Status::NoMemory,
        Ok(text) => deliver(&text, sink),
    }
}

// The number of the last line, or 0.
fn number_of_last(lines: &[Line]) -> u32
    ensures { result ≡ last_number lines.now }
{
    match lines.last() {
        Some(line) => line.number,
        None => 0,
    }
}

/// Writes which line is bad, and what is wrong with it. A sink that fails doesn't change the status.
pub fn report_bad_line<K: Sink>(alloc: Global, line: u32, cause: LineError, sink: &mut K) -> Status
    ensures { TellsBad result line cause (record { written = K.written sink.old; faults = K.faults sink.old })
        (record { written = K.written sink.new; faults = K.faults sink.new }) }
{
    match bad_line(alloc, line, cause) {
        Err(Memory) => Status::NoMemory,
        Ok(text) => {
            let _ = write_all(sink, &text);
            Status::BadLine
        }
    }
}

/// Writes why the complex wasn't opened: that a device failed, or where the devices aren't sound. A sink that fails doesn't change
/// the status.
pub fn report_unopened<K: Sink>(alloc: Global, refusal: &Refusal, sink: &mut K) -> Status
    ensures { TellsUnopened refusal.now result (record { written = K.written sink.old; faults = K.faults sink.old })
        (record { written = K.written sink.new; faults = K.faults sink.new }) }
{
    match refusal {
        Refusal::Failed => {
            let _ = write_all(sink, b"device\n");
            Status::Device
        }
        Refusal::Damaged { dev, at } => report_damaged(alloc, *dev, *at, sink),
        _ => Status::NoMemory,
    }
}

// Writes where the devices fail first.
fn report_damaged<K: Sink>(alloc: Global, dev: u8, at: u64, sink: &mut K) -> Status
    ensures { TellsDamaged result dev at (record { written = K.written sink.old; faults = K.faults sink.old })
        (record { written = K.written sink.new; faults = K.faults sink.new }) }
{
    match damaged_line(alloc, dev, at) {
        Err(Memory) => Status::NoMemory,
        Ok(text) => {
            let _ = write_all(sink, &text);
            Status::Damaged
        }
    }
}
