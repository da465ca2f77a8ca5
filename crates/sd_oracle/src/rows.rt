//! Whether rows are the committed records of a page.

ghost use Rattle.std.specs.Prelude.{◌↔◌, IsTrue};
ghost use Rattle.sd_model.specs.State.{now};
ghost use Rattle.sd_model.specs.Listing.{AreIn, StartsAbove, AreRising, AreRows};
ghost use Rattle.sd_oracle.specs.Lists.{meaning};
ghost use Rattle.sd_oracle.specs.Rows.{Agree, AgreeAtRows, AgreeAtActs, AgreeAtDone};

use crate::{Lists, committed, find_row};
use sd_base::{Bytes, PageNo, Rid, same_value};
use sd_model::{Act, Done};

/// Whether the rows are the committed records of the page, rising by slot.
pub fn are_rows(lists: &Lists, page: PageNo, rows: &[(Rid, Bytes)]) -> bool
    ensures { IsTrue result ↔ AreRows page (now (meaning lists.now)) rows.now }
{
    if !are_in(page, rows) {
        return false;
    }
    if !are_rising(rows) {
        return false;
    }
    if !agree_at_rows(lists, page, rows, rows) {
        return false;
    }
    if !agree_at_rows(lists, page, rows, lists.start.items()) {
        return false;
    }
    agree_at_done(lists, page, rows, &lists.done)
}

fn agree_at_done(lists: &Lists, page: PageNo, rows: &[(Rid, Bytes)], done: &[Done]) -> bool
    ensures { IsTrue result ↔ AgreeAtDone page (now (meaning lists.now)) rows.now done.now }
{
    match done {
        [] => true,
        [first, rest @ ..] => {
            agree_at_acts(lists, page, rows, first.acts.items())
                && agree_at_done(lists, page, rows, rest)
        }
    }
}

fn agree_at_acts(lists: &Lists, page: PageNo, rows: &[(Rid, Bytes)], acts: &[Act]) -> bool
    ensures { IsTrue result ↔ AgreeAtActs page (now (meaning lists.now)) rows.now acts.now }
{
    match acts {
        [] => true,
        [Act::Put { rid, .. }, rest @ ..] => {
            agrees(lists, page, rows, rid) && agree_at_acts(lists, page, rows, rest)
        }
        [_, rest @ ..] => agree_at_acts(lists, page, rows, rest),
    }
}

fn agree_at_rows(lists: &Lists, page: PageNo, rows: &[(Rid, Bytes)], some: &[(Rid, Bytes)]) -> bool
    ensures { IsTrue result ↔ AgreeAtRows page (now (meaning lists.now)) rows.now some.now }
{
    match some {
        [] => true,
        [first, rest @ ..] => {
            agrees(lists, page, rows, &first.0) && agree_at_rows(lists, page, rows, rest)
        }
    }
}

// Whether the rows have at the record what is committed, if it is of the page.
fn agrees(lists: &Lists, page: PageNo, rows: &[(Rid, Bytes)], rid: &Rid) -> bool
    ensures { IsTrue result ↔ Agree page (now (meaning lists.now)) rows.now rid.now }
{
    rid.page != page
        || same_value(
            find_row(rows, rid),
            committed(lists.start.items(), &lists.done, rid),
        )
}

fn are_in(page: PageNo, rows: &[(Rid, Bytes)]) -> bool
    ensures { IsTrue result ↔ AreIn page rows.now }
{
    match rows {
        [] => true,
        [first, rest @ ..] => first.0.page == page && are_in(page, rest),
    }
}

fn are_rising(rows: &[(Rid, Bytes)]) -> bool
    ensures { IsTrue result ↔ AreRising rows.now }
{
    match rows {
        [] => true,
        [first, rest @ ..] => starts_above(first.0.slot, rest) && are_rising(rest),
    }
}

fn starts_above(slot: u16, rows: &[(Rid, Bytes)]) -> bool
    ensures { IsTrue result ↔ StartsAbove slot rows.now }
{
    match rows {
        [] => true,
        [first, ..] => slot < first.0.slot,
    }
}
