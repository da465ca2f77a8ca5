//! The entries of one line after another, where the lines of the entries don't fall.

ghost use Rattle.std.specs.Prelude.{◌≡◌, ◌<◌, option_map};
ghost use Rattle.std.specs.Option.{option_or};
ghost use Rattle.sd_model.specs.Booked.{entries_in, seen_entry};
ghost use Rattle.sd_report.specs.Report.{entries_of, last_entry, upto, behind};

use sd_model::{Entry, Noted, Seen, Told};

/// The last entry of the line before the first of a later line, and the entries from there on.
pub fn part_at<'a>(number: u32, entries: Told<'a>) -> (Option<Seen<'a>>, Told<'a>)
    requires number { 0 < number }
    ensures last { option_map seen_entry result.0 ≡ last_entry (entries_of number (upto number (entries_in entries.entry))) }
    ensures others { entries_in result.1 ≡ behind number (entries_in entries.entry) }
{
    let Told {
        mut noted,
        mut lines,
        mut whole,
    } = entries;
    let mut last = None;
    while let [first, rest @ ..] = noted {
        match first {
            // A help is of no line.
            Noted::Help { .. } => {}
            Noted::Line => match lines {
                [] => break,
                [short, behind @ ..] => {
                    let line = short.line();
                    if line > number {
                        break;
                    }
                    if line == number {
                        last = Some(Seen::Short(short));
                    }
                    lines = behind;
                }
            },
            Noted::Whole => match whole {
                [] => break,
                [entry, behind @ ..] => {
                    if entry.line > number {
                        break;
                    }
                    if entry.line == number {
                        last = Some(Seen::Whole(entry));
                    }
                    whole = behind;
                }
            },
        }
        noted = rest;
    }
    match noted {
        // What isn't noted stands behind.
        [] => part_unnoted(number, last, whole),
        _ => {
            let left = Told {
                noted,
                lines,
                whole,
            };
            (last, left)
        }
    }
}

// Behind what is noted stand entries that aren't: the last of the line is among those, or it is this one.
fn part_unnoted<'a>(
    number: u32,
    last: Option<Seen<'a>>,
    entries: &'a [Entry],
) -> (Option<Seen<'a>>, Told<'a>)
    ensures last { option_map seen_entry result.0 ≡ option_or
        (last_entry (entries_of number (upto number entries.now))) (option_map seen_entry last.entry) }
    ensures others { entries_in result.1 ≡ behind number entries.now }
{
    let mut last = last;
    let mut rest = entries;
    while let [entry, after @ ..] = rest {
        if entry.line > number {
            break;
        }
        if entry.line == number {
            last = Some(Seen::Whole(entry));
        }
        rest = after;
    }
    (last, Told::of(rest))
}
