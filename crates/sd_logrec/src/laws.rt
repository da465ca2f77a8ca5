//! Laws of the spelling of records, each the contract of a call that does nothing.

ghost use Rattle.std.specs.Prelude.{◌≡◌, ◌<◌, ℕ, ◌+◌, false, List, [], ◌∷◌, ◌++◌, length, take, slice_index, None, Some};
ghost use Rattle.sd_base.specs.Twin.{is_open};
ghost use Rattle.sd_logrec.specs.declared.record.Record.{Record};
ghost use Rattle.sd_logrec.specs.Kept.{Group, StandsAt, Whole, master, placed_from, reading, spelled};
ghost use Rattle.sd_logrec.specs.Reading.{record_at};
ghost use Rattle.sd_logrec.specs.Spelling.{spelling, spelled_length, HasSpelling};

use crate::layout::AREA;

/// A record has one spelling, and records with one spelling are one record.
pub fn one_spelling()
    ensures { (a b : Record) → HasSpelling a → HasSpelling b → spelling a ≡ spelling b → a ≡ b }
{}

/// No spelling begins another: bytes with a spelling in front have one record there, and one rest.
pub fn no_prefix()
    ensures { (a b : Record) (x y : List ℕ) → HasSpelling a → HasSpelling b
        → spelling a ++ x ≡ spelling b ++ y → (a ≡ b) × (x ≡ y) }
{}

/// A spelling is as long as the table says.
pub fn spelling_length()
    ensures { (r : Record) → length (spelling r) ≡ spelled_length r }
{}

/// A spelling is read as its record, whatever follows.
pub fn read_again()
    ensures { (r : Record) (rest : List ℕ) → HasSpelling r → record_at (spelling r ++ rest) ≡ Some (r, rest) }
{}

/// Where no spelling stands, no record is read.
pub fn read_nothing()
    ensures { (bytes : List ℕ) → ((i : ℕ) → slice_index bytes i < 256)
        → ((r : Record) (rest : List ℕ) → HasSpelling r → bytes ≡ spelling r ++ rest → ⊥) → record_at bytes ≡ None }
{}

/// A closed gate stands behind whole groups.
pub fn gate_closed()
    ensures { (start gate : ℕ) (bytes : List ℕ) (groups : List Group) → reading start bytes ≡ Whole groups gate → is_open gate bytes ≡ false }
{}

/// What stands behind a closed gate isn't read.
pub fn groups_end()
    ensures { (start gate : ℕ) (old new : List ℕ) (groups : List Group) → reading start old ≡ Whole groups gate
        → take gate new ≡ take gate old → is_open gate new ≡ false → reading start new ≡ Whole groups gate }
{}

/// A group that stands where the gate was closed is read behind the others.
pub fn group_behind()
    ensures { (start gate : ℕ) (old new : List ℕ) (groups : List Group) (rs : List Record) → reading start old ≡ Whole groups gate
        → take gate new ≡ take gate old → StandsAt gate rs new
        → reading start new ≡ Whole (groups ++ record { at = gate; records = placed_from (gate + 5) rs } ∷ []) (gate + 5 + length (spelled rs)) }
{}

/// The master stands in front of the area.
pub fn master_in_front()
    ensures { (old new : List ℕ) → take AREA new ≡ take AREA old → master new ≡ master old }
{}
