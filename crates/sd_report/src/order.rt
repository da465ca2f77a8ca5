//! The order of lines and of entries that a report stands on.

ghost use Rattle.std.specs.Prelude.{◌↔◌, IsTrue};
ghost use Rattle.sd_model.specs.Booked.{entries_in};
ghost use Rattle.sd_report.specs.Report.{AreFrom, AreAbove};

use sd_model::Told;
use sd_script::Line;

fn lines_rise(lines: &[Line]) -> bool
    ensures { IsTrue result ↔ AreAbove 0 lines.now }
{
    let mut low = 0;
    let mut rest = lines;
    while let [first, after @ ..] = rest {
        if first.number <= low {
            return false;
        }
        low = first.number;
        rest = after;
    }
    true
}

fn entries_rise(entries: Told<'_>) -> bool
    ensures { IsTrue result ↔ AreFrom 0 (entries_in entries.entry) }
{
    let mut low = 0;
    let mut rest = entries;
    while let Some((seen, after)) = rest.first() {
        let line = seen.line();
        if line != 0 && line < low {
            return false;
        }
        low = low.max(line);
        rest = after;
    }
    true
}

/// Whether the numbers of the lines rise, and the entries stand in the order of their lines, but for those of line 0.
pub fn in_order(lines: &[Line], entries: Told<'_>) -> bool
    ensures { IsTrue result ↔ (AreAbove 0 lines.now × AreFrom 0 (entries_in entries.entry)) }
{
    lines_rise(lines) && entries_rise(entries)
}
