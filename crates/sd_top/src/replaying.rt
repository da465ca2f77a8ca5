//! The top call: a script from its source to its report.

ghost use Rattle.std.specs.Prelude.{◌≡◌, ◌⊎◌, ◌≤◌, ℕ, List, length, map, string_bytes, Some, None};
ghost use Rattle.sd_base.specs.Streams.{Rises};
ghost use Rattle.sd_script.specs.declared.line.Line.{Line};
ghost use Rattle.sd_script.specs.Reading.{IsBadAt, IsScript};
ghost use Rattle.sd_world.specs.Serving.{telling};
ghost use Rattle.sd_chain.specs.Checks.{DevicesAreSound};
ghost use Rattle.sd_drive.specs.Driving.{World};
ghost use Rattle.sd_drive.specs.Reaching.{AreDriven};
ghost use Rattle.sd_top.specs.declared.words.Request.{Request};
ghost use Rattle.sd_top.specs.Words.{IsCommand, asked_of};
ghost use Rattle.sd_top.specs.Asking.{IsDue, IsUnread, ReadFails};
ghost use Rattle.sd_top.specs.Unopened.{IsEnded, IsOpened, IsUnopened};
ghost use Rattle.sd_script.specs.Order.{insts_of, pages_of};
ghost use Rattle.sd_top.specs.declared.status.Status.TheVariants as status;
ghost use Rattle.sd_top.specs.declared.words.Request.TheVariants as want;
ghost use Rattle.sd_top.specs.Sides.{SourceSide};
ghost use Rattle.sd_top.specs.FirstBad.{IsFirstBad};
ghost use Rattle.sd_top.specs.Input.{Taken};
ghost use Rattle.sd_top.specs.Opening.{frames_of};
ghost use Rattle.sd_top.specs.Outcome.{Answers, Outcome};

use crate::first_bad::copy_line;
use crate::{
    BadLine, InputError, Request, Status, asked_of, read_all, report_bad_line, report_run,
    report_unopened,
};
use sd_base::{Gate, LineError, Memory, Refusal, Sink, Source};
use sd_drive::{Driver, Rise};
use sd_gen::generate;
use sd_hall::Hall;
use sd_model::Book;
use sd_rig::Rig;
use sd_script::{Form, Kind, Line, Script};
use sd_state::Shape;
use std::alloc::Global;

/// What `top` answers: its status, the rig, the book, which is there where a script was read and the complex was opened, and the
/// first bad line, which is there where the status is `BadLine`.
#[derive(Drop)]
pub struct Done<G> {
    pub status: Status,
    pub rig: G,
    pub book: Option<Book>,
    pub bad: Option<BadLine>,
}

/// Runs the command that the words give: `replay` reads a script from the source, opens the complex that the devices of the rig
/// stand for, does what the lines say, and writes the report to the sink; `gen NUMBER COUNT` does the same with the script of COUNT
/// transfers that NUMBER gives, leaves the source alone, and writes the summary. The script is read whole before the first device call.
pub fn top<S: Source, K: Sink, G: Rig, T: Gate>(
    alloc: Global,
    words: &[String],
    source: &mut S,
    sink: &mut K,
    rig: G,
    _gate: &T,
) -> Done<G>

    // What each status says of a command: the report or the summary of a run that is told of the script, the first bad line, which is handed
    // back, a fault, where the devices aren't sound; and what the devices stand for.
    ensures outcome { (asked : Request) → asked_of (map string_bytes words.now) ≡ Some asked
        → Outcome (telling G.seen G.leaves G.moment G.since G.faults) asked result.status
        (record { left = S.left source.old; faults = S.faults source.old })
        (record { left = S.left source.new; faults = S.faults source.new })
        (record { sink = record { written = K.written sink.old; faults = K.faults sink.old }; rig = rig })
        (record { sink = record { written = K.written sink.new; faults = K.faults sink.new }; rig = result.rig }) result.book result.bad }

    // No other status hands a bad line back.
    ensures fine { (result.status ≡ status.BadLine → ⊥) → result.bad ≡ None }

    // A generated script has no bad line.
    ensures generated { (number count : ℕ) → asked_of (map string_bytes words.now) ≡ Some (want.Gen number count)
        → result.status ≡ status.BadLine → ⊥ }

    // Words that are a command are no faulty ones, and others are, where there is memory to read them.
    ensures usage { (result.status ≡ status.Usage → IsCommand (map string_bytes words.now) → ⊥)
        × ((IsCommand (map string_bytes words.now) → ⊥) → (result.status ≡ status.Usage) ⊎ (result.status ≡ status.NoMemory)) }

    // Other words touch neither stream nor the devices, and there is no book.
    ensures untouched { (IsCommand (map string_bytes words.now) → ⊥) → (S.left source.new ≡ S.left source.old)
        × (S.faults source.new ≡ S.faults source.old)
        × (K.written sink.new ≡ K.written sink.old) × (K.faults sink.new ≡ K.faults sink.old) × (result.book ≡ None) × (result.rig ≡ rig) }

    // A generated script takes nothing from the source.
    ensures unread { (asked : Request) → asked_of (map string_bytes words.now) ≡ Some asked
        → IsUnread asked (record { left = S.left source.old; faults = S.faults source.old })
        (record { left = S.left source.new; faults = S.faults source.new }) }

    // No more than 4,194,305 bytes are taken from the source.
    ensures bounded { (text : List ℕ) × (length text ≤ 4194305) × Taken (S.left source.old) text (S.left source.new) }

    // Over sound devices a script is done, unless a stream fails, a device fails in the opening, or there is no memory. A device that
    // fails behind the opening is told by replies.
    ensures complete { (asked : Request) (text : List ℕ) (lines : List Line) → asked_of (map string_bytes words.now) ≡ Some asked
        → IsDue asked (S.left source.old) text → IsScript text lines → DevicesAreSound (G.seen rig)
        → (ReadFails asked (S.faults source.old) (S.faults source.new) → ⊥) → (Rises (K.faults sink.old) (K.faults sink.new) → ⊥)
        → (result.status ≡ status.Done) ⊎ ((result.status ≡ status.NoMemory) ⊎ (result.status ≡ status.Device)) }

    // Devices are told damaged only where they aren't sound, and are so where a script meets them, unless the source fails, a device
    // fails in the opening, or there is no memory.
    ensures damaged { (result.status ≡ status.Damaged → DevicesAreSound (G.seen rig) → ⊥)
        × ((asked : Request) (text : List ℕ) (lines : List Line) → asked_of (map string_bytes words.now) ≡ Some asked
        → IsDue asked (S.left source.old) text → IsScript text lines → (DevicesAreSound (G.seen rig) → ⊥)
        → (ReadFails asked (S.faults source.old) (S.faults source.new) → ⊥)
        → (result.status ≡ status.Damaged) ⊎ ((result.status ≡ status.NoMemory) ⊎ (result.status ≡ status.Device))) }
{
    match asked_of(alloc, words) {
        Ok(Some(asked)) => run_asked(alloc, asked, source, sink, rig),
        Ok(None) => without_book(Status::Usage, rig),
        Err(Memory) => without_book(Status::NoMemory, rig),
    }
}

// No script was begun.
fn without_book<G>(status: Status, rig: G) -> Done<G>
    ensures status { result.status ≡ status }
    ensures rig { result.rig ≡ rig }
    ensures book { result.book ≡ None }
    ensures bad { result.bad ≡ None }
{
    Done {
        status,
        rig,
        book: None,
        bad: None,
    }
}

// Does what was asked for.
fn run_asked<S: Source, K: Sink, G: Rig>(
    alloc: Global,
    asked: Request,
    source: &mut S,
    sink: &mut K,
    rig: G,
) -> Done<G>
    ensures outcome { Outcome (telling G.seen G.leaves G.moment G.since G.faults) asked result.status
        (record { left = S.left source.old; faults = S.faults source.old })
        (record { left = S.left source.new; faults = S.faults source.new })
        (record { sink = record { written = K.written sink.old; faults = K.faults sink.old }; rig = rig })
        (record { sink = record { written = K.written sink.new; faults = K.faults sink.new }; rig = result.rig }) result.book result.bad }
    ensures fine { (result.status ≡ status.BadLine → ⊥) → result.bad ≡ None }
    ensures unread { IsUnread asked (record { left = S.left source.old; faults = S.faults source.old })
        (record { left = S.left source.new; faults = S.faults source.new }) }
    ensures bounded { (text : List ℕ) × (length text ≤ 4194305) × Taken (S.left source.old) text (S.left source.new) }
{
    match asked {
        Request::Replay => replay(alloc, source, sink, rig),
        Request::Gen { number, count } => generated(alloc, number, count, sink, rig),
    }
}

// Runs the script of the source.
fn replay<S: Source, K: Sink, G: Rig>(
    alloc: Global,
    source: &mut S,
    sink: &mut K,
    rig: G,
) -> Done<G>
    ensures outcome { Outcome (telling G.seen G.leaves G.moment G.since G.faults) want.Replay result.status
        (record { left = S.left source.old; faults = S.faults source.old })
        (record { left = S.left source.new; faults = S.faults source.new })
        (record { sink = record { written = K.written sink.old; faults = K.faults sink.old }; rig = rig })
        (record { sink = record { written = K.written sink.new; faults = K.faults sink.new }; rig = result.rig }) result.book result.bad }
    ensures fine { (result.status ≡ status.BadLine → ⊥) → result.bad ≡ None }
    ensures bounded { (text : List ℕ) × (length text ≤ 4194305) × Taken (S.left source.old) text (S.left source.new) }
{
    match read_all(alloc, source) {
        Err(InputError::Fault) => without_book(Status::ReadFault, rig),
        Err(InputError::Memory) => without_book(Status::NoMemory, rig),
        Ok(text) => replay_text(alloc, Request::Replay, &text, sink, rig),
    }
}

// Runs the script of so many transfers that the number gives.
fn generated<K: Sink, G: Rig>(
    alloc: Global,
    number: u64,
    count: u32,
    sink: &mut K,
    rig: G,
) -> Done<G>
    ensures outcome { (source : SourceSide) → Outcome (telling G.seen G.leaves G.moment G.since G.faults) (want.Gen number count) result.status
        source source
        (record { sink = record { written = K.written sink.old; faults = K.faults sink.old }; rig = rig })
        (record { sink = record { written = K.written sink.new; faults = K.faults sink.new }; rig = result.rig }) result.book result.bad }
    ensures fine { (result.status ≡ status.BadLine → ⊥) → result.bad ≡ None }
{
    match generate(alloc, number, count) {
        Err(Memory) => without_book(Status::NoMemory, rig),
        Ok(text) => replay_text(alloc, Request::Gen { number, count }, &text, sink, rig),
    }
}

// Runs a text, of which this was asked.
fn replay_text<K: Sink, G: Rig>(
    alloc: Global,
    asked: Request,
    text: &[u8],
    sink: &mut K,
    rig: G,
) -> Done<G>
    ensures outcome { Answers (telling G.seen G.leaves G.moment G.since G.faults) asked result.status text.now
        (record { sink = record { written = K.written sink.old; faults = K.faults sink.old }; rig = rig })
        (record { sink = record { written = K.written sink.new; faults = K.faults sink.new }; rig = result.rig }) result.book result.bad }
    ensures fine { (result.status ≡ status.BadLine → ⊥) → result.bad ≡ None }
{
    match Script::read(alloc, text, Kind::Replay) {
        Ok(script) => replay_lines(alloc, asked, script.lines(), sink, rig),
        Err(Refusal::BadLine { line, cause }) => {
            tell_bad(alloc, asked, text, line, cause, sink, rig)
        }
        Err(_) => without_book(Status::NoMemory, rig),
    }
}

// Tells the first bad line of a text.
fn tell_bad<K: Sink, G: Rig>(
    alloc: Global,
    asked: Request,
    text: &[u8],
    line: u32,
    cause: LineError,
    sink: &mut K,
    rig: G,
) -> Done<G>
    requires bad { IsBadAt text.now line cause }
    ensures outcome { Answers (telling G.seen G.leaves G.moment G.since G.faults) asked result.status text.now
        (record { sink = record { written = K.written sink.old; faults = K.faults sink.old }; rig = rig })
        (record { sink = record { written = K.written sink.new; faults = K.faults sink.new }; rig = result.rig }) result.book result.bad }
    ensures fine { (result.status ≡ status.BadLine → ⊥) → result.bad ≡ None }
{
    match copy_line(alloc, text, line) {
        Ok(bytes) => hand_back(alloc, BadLine { line, cause, bytes }, sink, rig),
        Err(Memory) => without_book(Status::NoMemory, rig),
    }
}

// The same with its bytes.
fn hand_back<K: Sink, G: Rig>(alloc: Global, bad: BadLine, sink: &mut K, rig: G) -> Done<G>
    ensures outcome { (asked : Request) (text : List ℕ) → IsFirstBad text bad
        → Answers (telling G.seen G.leaves G.moment G.since G.faults) asked result.status text
        (record { sink = record { written = K.written sink.old; faults = K.faults sink.old }; rig = rig })
        (record { sink = record { written = K.written sink.new; faults = K.faults sink.new }; rig = result.rig }) result.book result.bad }
    ensures fine { (result.status ≡ status.BadLine → ⊥) → result.bad ≡ None }
{
    match report_bad_line(alloc, bad.line, bad.cause, sink) {
        Status::BadLine => with_bad(bad, rig),
        status => without_book(status, rig),
    }
}

// The text was no script, and this is its first bad line.
fn with_bad<G>(bad: BadLine, rig: G) -> Done<G>
    ensures status { result.status ≡ status.BadLine }
    ensures rig { result.rig ≡ rig }
    ensures book { result.book ≡ None }
    ensures bad { result.bad ≡ Some bad }
{
    Done {
        status: Status::BadLine,
        rig,
        book: None,
        bad: Some(bad),
    }
}

fn replay_lines<K: Sink, G: Rig>(
    alloc: Global,
    asked: Request,
    lines: &[Line],
    sink: &mut K,
    rig: G,
) -> Done<G>
    requires script { (text : List ℕ) × IsScript text lines.now }
    ensures outcome { (text : List ℕ) → IsScript text lines.now → Answers (telling G.seen G.leaves G.moment G.since G.faults) asked result.status text
        (record { sink = record { written = K.written sink.old; faults = K.faults sink.old }; rig = rig })
        (record { sink = record { written = K.written sink.new; faults = K.faults sink.new }; rig = result.rig }) result.book result.bad }
    ensures fine { result.bad ≡ None }
{
    let shape = shape(lines);
    match Hall::open(alloc, rig, shape) {
        Ok(mut hall) => {
            // An entry a line, with those of pulls and those that are owed.
            hall.expect(lines.len().saturating_mul(2));
            let rise = Rise::new(hall, shape.insts, shape.pages);
            run(alloc, asked, lines, sink, rise)
        }
        Err((refusal, rig)) => without_book(report_unopened(alloc, &refusal, sink), rig),
    }
}

// Lets the complex, whose devices are read, recover and join, and then does what the lines say.
fn run<K: Sink, G: Rig>(
    alloc: Global,
    asked: Request,
    lines: &[Line],
    sink: &mut K,
    mut rise: Rise<G>,
) -> Done<G>
    requires script { (text : List ℕ) × IsScript text lines.now }
    requires unopened { (rig : G) × IsUnopened (telling G.seen G.leaves G.moment G.since G.faults) lines.now rig rise }
    ensures outcome { (text : List ℕ) (rig : G) → IsScript text lines.now
        → IsUnopened (telling G.seen G.leaves G.moment G.since G.faults) lines.now rig rise
        → Answers (telling G.seen G.leaves G.moment G.since G.faults) asked result.status text
        (record { sink = record { written = K.written sink.old; faults = K.faults sink.old }; rig = rig })
        (record { sink = record { written = K.written sink.new; faults = K.faults sink.new }; rig = result.rig }) result.book result.bad }
    ensures fine { result.bad ≡ None }
{
    match rise.opening() {
        Ok(()) => {
            let driver = Driver::new(alloc, rise);
            run_lines(alloc, asked, lines, sink, driver)
        }
        Err(refusal) => {
            let (_, rig) = rise.close();
            without_book(report_unopened(alloc, &refusal, sink), rig)
        }
    }
}

fn run_lines<K: Sink, G: Rig>(
    alloc: Global,
    asked: Request,
    lines: &[Line],
    sink: &mut K,
    driver: Driver<G>,
) -> Done<G>
    requires script { (text : List ℕ) × IsScript text lines.now }
    requires insts { driver.insts ≡ insts_of lines.now }
    requires pages { driver.pages ≡ pages_of lines.now }
    requires opened { (rig : G) × (w : World) × IsOpened (telling G.seen G.leaves G.moment G.since G.faults) lines.now rig driver w }
    ensures outcome { (text : List ℕ) (rig : G) (w : World) → IsScript text lines.now
        → IsOpened (telling G.seen G.leaves G.moment G.since G.faults) lines.now rig driver w
        → Answers (telling G.seen G.leaves G.moment G.since G.faults) asked result.status text
        (record { sink = record { written = K.written sink.old; faults = K.faults sink.old }; rig = rig })
        (record { sink = record { written = K.written sink.new; faults = K.faults sink.new }; rig = result.rig }) result.book result.bad }
    ensures fine { result.bad ≡ None }
{
    sd_model::laws::serial_order();
    let Ended { done, book, rig } = do_lines(lines, driver);
    let status = match done {
        Ok(()) => report_run(alloc, asked, lines, &book, sink),
        Err(Memory) => Status::NoMemory,
    };
    Done {
        status,
        rig,
        book: Some(book),
        bad: None,
    }
}

// What the lines of a script leave: whether there was memory for all, the book and the devices.
struct Ended<G> {
    done: Result<(), Memory>,
    book: Book,
    rig: G,
}

// Does what the lines say, one after another, and closes the complex.
fn do_lines<G: Rig>(lines: &[Line], mut driver: Driver<G>) -> Ended<G>
    requires driven { AreDriven lines.now driver.insts driver.pages }
    requires opened { (rig : G) × (w : World) × IsOpened (telling G.seen G.leaves G.moment G.since G.faults) lines.now rig driver w }
    ensures { (rig : G) (w : World) → IsOpened (telling G.seen G.leaves G.moment G.since G.faults) lines.now rig driver w
        → IsEnded (telling G.seen G.leaves G.moment G.since G.faults) lines.now rig result }
{
    let done = driver.replay(lines);
    let (book, rig) = driver.close();
    Ended { done, book, rig }
}

// What the first line gives.
fn shape(lines: &[Line]) -> Shape
    ensures insts { result.insts ≡ insts_of lines.now }
    ensures pages { result.pages ≡ pages_of lines.now }
    ensures frames { result.frames ≡ frames_of lines.now }
{
    match lines.first() {
        Some(
            Line {
                number: _,
                session: _,
                form: Form::Complex {
                    insts,
                    pages,
                    frames,
                },
            },
        ) => Shape {
            insts: insts.get(),
            pages: *pages,
            frames: *frames,
        },
        _ => Shape {
            insts: 0,
            pages: 0,
            frames: 0,
        },
    }
}
