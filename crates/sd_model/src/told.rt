//! The entries of a book, one after another, however each is kept.

ghost use Rattle.std.specs.Prelude.{◌≡◌};
ghost use Rattle.sd_model.specs.Booked.{IsParted, entries_in, seen_entry};

use crate::{Entry, LineEntry, Noted};

/// Entries that are left to read: how each is noted, and those that stand elsewhere; where none is noted, all that stand whole.
#[derive(Clone, Copy)]
pub struct Told<'a> {
    pub noted: &'a [Noted],
    pub lines: &'a [LineEntry],
    pub whole: &'a [Entry],
}

/// An entry as it is kept.
#[derive(Clone, Copy)]
pub enum Seen<'a> {
    /// A help.
    Help(&'a Noted),
    /// One of a transaction, in few bytes.
    Short(&'a LineEntry),
    Whole(&'a Entry),
}

impl<'a> Told<'a> {
    /// These entries, of which each stands whole.
    pub fn of(whole: &'a [Entry]) -> Told<'a>
        ensures { entries_in result ≡ whole.now }
    {
        Told {
            noted: &[],
            lines: &[],
            whole,
        }
    }

    /// The first entry, and those behind it; `None` where none is left.
    #[inline(always)]
    pub fn first(self) -> Option<(Seen<'a>, Told<'a>)>
        ensures { IsParted (entries_in self.entry) result }
    {
        let Told {
            noted,
            lines,
            whole,
        } = self;
        let [first, noted @ ..] = noted else {
            let [entry, whole @ ..] = whole else {
                return None;
            };
            return Some((
                Seen::Whole(entry),
                Told {
                    noted,
                    lines,
                    whole,
                },
            ));
        };
        match first {
            Noted::Help { .. } => Some((
                Seen::Help(first),
                Told {
                    noted,
                    lines,
                    whole,
                },
            )),
            Noted::Line => match lines {
                [] => None,
                [short, lines @ ..] => Some((
                    Seen::Short(short),
                    Told {
                        noted,
                        lines,
                        whole,
                    },
                )),
            },
            Noted::Whole => match whole {
                [] => None,
                [entry, whole @ ..] => Some((
                    Seen::Whole(entry),
                    Told {
                        noted,
                        lines,
                        whole,
                    },
                )),
            },
        }
    }
}

impl<'a> Seen<'a> {
    /// The script's line that it serves.
    pub fn line(self) -> u32
        ensures { result ≡ (seen_entry self.entry).line }
    {
        match self {
            // A help is of no line.
            Seen::Help(_) => 0,
            Seen::Short(short) => short.line(),
            Seen::Whole(entry) => entry.line,
        }
    }
}
