//! The text of a page's place.

ghost use Rattle.std.specs.Prelude.{◌≡◌, ◌++◌, codes, OnOk};
ghost use Rattle.std.specs.Fmt.{decimal};
ghost use Rattle.sd_base.specs.Sets.{members};
ghost use Rattle.sd_report.specs.Places.{insts_text, lsn_text, dirty_text, writer_text, place_text};

use crate::words::{push_counted, push_digits, push_word};
use sd_base::{InstNo, InstSet, Lsn, Memory, Place};

// Appends the instances of a set, with a comma between each two.
fn push_insts(out: &mut Vec<u8>, set: InstSet) -> Result<(), Memory>
    ensures { OnOk result (out.new.items ≡ out.old.items ++ insts_text (members set.bits)) }
{
    let Some(first) = set.first() else {
        return Ok(());
    };
    push_digits(out, u64::from(first.get()))?;
    let mut rest = set.without(first);
    while let Some(next) = rest.first() {
        push_counted(out, b",", u64::from(next.get()))?;
        rest = rest.without(next);
    }
    Ok(())
}

fn push_dirty(out: &mut Vec<u8>, dirty: bool) -> Result<(), Memory>
    ensures { OnOk result (out.new.items ≡ out.old.items ++ dirty_text dirty) }
{
    if dirty {
        push_word(out, b" dirty")
    } else {
        push_word(out, b" clean")
    }
}

fn push_writer(out: &mut Vec<u8>, writer: Option<InstNo>) -> Result<(), Memory>
    ensures { OnOk result (out.new.items ≡ out.old.items ++ writer_text writer) }
{
    match writer {
        None => push_word(out, b" clean"),
        Some(writer) => push_counted(out, b" dirty by ", u64::from(writer.get())),
    }
}

// The place of a page that is shared.
fn push_shared(
    out: &mut Vec<u8>,
    set: InstSet,
    writer: Option<InstNo>,
    lsn: Lsn,
) -> Result<(), Memory>
    ensures { OnOk result (out.new.items
        ≡ out.old.items ++ codes "shared " ++ insts_text (members set.bits) ++ lsn_text lsn ++ writer_text writer) }
{
    push_word(out, b"shared ")
        .and(push_insts(out, set))
        .and(push_counted(out, b" lsn ", lsn))
        .and(push_writer(out, writer))
}

// The place of a page that one instance has, or that moves to it: a word with its space.
fn push_alone(
    out: &mut Vec<u8>,
    word: &[u8],
    inst: InstNo,
    dirty: bool,
    lsn: Lsn,
) -> Result<(), Memory>
    ensures { OnOk result (out.new.items ≡ out.old.items ++ word.now ++ decimal inst ++ lsn_text lsn ++ dirty_text dirty) }
{
    push_counted(out, word, u64::from(inst.get()))
        .and(push_counted(out, b" lsn ", lsn))
        .and(push_dirty(out, dirty))
}

/// Appends where a page is, with the LSN of its newest version.
pub fn push_place(out: &mut Vec<u8>, place: &Place, lsn: Lsn) -> Result<(), Memory>
    ensures { OnOk result (out.new.items ≡ out.old.items ++ place_text place.now lsn) }
{
    match place {
        Place::Free => push_word(out, b"free"),
        Place::Shared { set, writer } => push_shared(out, *set, *writer, lsn),
        Place::Excl { holder, dirty } => push_alone(out, b"excl ", *holder, *dirty, lsn),
        Place::Moving { to, dirty, .. } => push_alone(out, b"moving ", *to, *dirty, lsn),
        Place::Lost => push_word(out, b"lost"),
    }
}
