//! The words of a call: the loop that they name, and its numbers.

ghost use Rattle.std.specs.Prelude.{◌≤◌, IfSome};

use crate::texts::Piece;
use crate::{books, complexes, devices, locks, logs, moves, recovery, texts};
use std::alloc::Global;

/// Runs the loop that the words name, and tells whether it went through; `None` where they name none.
pub fn run(rt: &HostRuntime, alloc: Global, words: &[String]) -> Option<bool> {
    let [name, rest @ ..] = words else {
        return None;
    };
    match name.as_str() {
        "files" => files(rt, alloc, rest),
        "devices" => cycles(alloc, rest),
        "complex" => changes(alloc, rest),
        "locks" => requests(alloc, rest),
        "locks2" => pairs(alloc, rest),
        _ => run_other(alloc, name, rest),
    }
}

// The same of the other loops.
fn run_other(alloc: Global, name: &str, words: &[String]) -> Option<bool> {
    match name {
        "recovery" => recoveries(alloc, words),
        "log" => transfers(alloc, words),
        "read" => readings(alloc, words),
        "report" => reports(alloc, words),
        "entries" => entries(alloc, words),
        "events" => events(words),
        "moves" => moved(alloc, words),
        _ => None,
    }
}

fn number(word: &str) -> Option<u32> {
    word.parse::<u32>().ok()
}

fn device(word: &str) -> Option<u8>
    ensures { IfSome result (λ dev. dev ≤ 8) }
{
    word.parse::<u8>().ok().filter(|dev| *dev <= 8)
}

fn files(rt: &HostRuntime, alloc: Global, words: &[String]) -> Option<bool> {
    let [dir, times, dev] = words else {
        return None;
    };
    let times = number(times)?;
    let dev = device(dev)?;
    Some(devices::cycles_in(rt, alloc, dir, dev, times))
}

fn cycles(alloc: Global, words: &[String]) -> Option<bool> {
    let [times, dev] = words else {
        return None;
    };
    let times = number(times)?;
    let dev = device(dev)?;
    Some(devices::cycles(alloc, dev, times))
}

fn changes(alloc: Global, words: &[String]) -> Option<bool> {
    let [complexes, times, each] = words else {
        return None;
    };
    let complexes = number(complexes)?;
    let times = number(times)?;
    let each = number(each).filter(|each| *each >= 1)?;
    Some(complexes::changes(alloc, complexes, times, each))
}

// Of one that waits for nobody, or, with two words, beside others that wait for it.
fn requests(alloc: Global, words: &[String]) -> Option<bool> {
    match words {
        [times] => Some(locks::requests(alloc, number(times)?)),
        [waiters, times] => {
            let waiters = number(waiters).filter(|n| *n < 512)?;
            Some(locks::requests_beside(alloc, waiters, number(times)?))
        }
        _ => None,
    }
}

fn pairs(alloc: Global, words: &[String]) -> Option<bool> {
    match words {
        [times] => Some(locks::pairs(alloc, number(times)?)),
        _ => None,
    }
}

fn recoveries(alloc: Global, words: &[String]) -> Option<bool> {
    let [logs, transfers, reads] = words else {
        return None;
    };
    let logs = number(logs).filter(|n| *n >= 1 && *n <= 8)?;
    let transfers = number(transfers)?;
    let reads = number(reads)?;
    Some(recovery::recoveries(alloc, logs, transfers, reads))
}

fn transfers(alloc: Global, words: &[String]) -> Option<bool> {
    let [logs, transfers, reads] = words else {
        return None;
    };
    let logs = logs.parse::<u8>().ok()?;
    let transfers = number(transfers)?;
    let reads = number(reads)?;
    Some(logs::transfers(alloc, logs, transfers, reads))
}

fn readings(alloc: Global, words: &[String]) -> Option<bool> {
    let [piece, times, reads] = words else {
        return None;
    };
    let piece = piece_of(piece)?;
    let times = number(times)?;
    let reads = number(reads)?;
    Some(texts::readings(alloc, piece, times, reads))
}

// What a text repeats, by its word.
fn piece_of(word: &str) -> Option<Piece> {
    match word {
        "transfer" => Some(Piece::Transfer),
        "begin" => Some(Piece::Begin),
        "give" => Some(Piece::Give),
        "commit" => Some(Piece::Commit),
        "force" => Some(Piece::Force),
        _ => None,
    }
}

fn reports(alloc: Global, words: &[String]) -> Option<bool> {
    let [transfers, renders] = words else {
        return None;
    };
    let transfers = number(transfers)?;
    Some(texts::reports(alloc, transfers, number(renders)?))
}

fn entries(alloc: Global, words: &[String]) -> Option<bool> {
    let [books, transfers] = words else {
        return None;
    };
    let books = number(books)?;
    Some(books::entries(alloc, books, number(transfers)?))
}

fn events(words: &[String]) -> Option<bool> {
    let [books, transfers] = words else {
        return None;
    };
    Some(books::events(number(books)?, number(transfers)?))
}

fn moved(alloc: Global, words: &[String]) -> Option<bool> {
    match words {
        [times] => Some(moves::moves(alloc, number(times)?)),
        _ => None,
    }
}
