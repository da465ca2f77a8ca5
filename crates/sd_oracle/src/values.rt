//! What a transaction finds at a record: its last live put of it, else what the committed ones left.

ghost use Rattle.std.specs.Prelude.{◌≡◌, option_copied, length};
ghost use Rattle.std.specs.Option.{unwrap_or};
ghost use Rattle.sd_model.specs.Tables.{Contents, contents};
ghost use Rattle.sd_model.specs.Acts.{seen_over, live, after};

use sd_base::{Bytes, Rid, lent_value};
use sd_model::{Act, Done};

/// The last live put of the record; `None` where there is none.
pub fn last_put<'a>(acts: &'a [Act], rid: &Rid) -> Option<&'a Option<Bytes>>
    ensures { (base : Contents) → seen_over base (live acts.now) rid.now ≡ unwrap_or (option_copied result) (base rid.now) }
{
    // Each undo that was passed takes back the next put before it.
    let mut undos: usize = 0;
    let mut left = acts.len();
    while left > 0 {
        left -= 1;
        match &acts[left] {
            Act::Read { .. } => {}
            Act::Undo => undos += 1,
            Act::Put { rid: at, value } => {
                if undos > 0 {
                    undos -= 1;
                } else if *at == *rid {
                    return Some(value);
                }
            }
        }
    }
    None
}

/// How many puts are live.
pub fn count_live(acts: &[Act]) -> usize
    ensures { result ≡ length (live acts.now) }
{
    let mut count: usize = 0;
    for act in acts {
        match act {
            Act::Read { .. } => {}
            Act::Put { .. } => count += 1,
            Act::Undo => count = count.saturating_sub(1),
        }
    }
    count
}

/// What the committed transactions left at the record, over the opening table.
pub fn committed<'a>(start: &'a [(Rid, Bytes)], done: &'a [Done], rid: &Rid) -> Option<&'a [u8]>
    ensures { option_copied result ≡ after (contents start.now) done.now rid.now }
{
    let mut found = find_row(start, rid);
    for transaction in done {
        found = overlaid(found, transaction, rid);
    }
    found
}

// What the record has after the transaction, where it had `old` before it.
fn overlaid<'a>(old: Option<&'a [u8]>, transaction: &'a Done, rid: &Rid) -> Option<&'a [u8]>
    ensures { (base : Contents) → base rid.now ≡ option_copied old.entry → option_copied result ≡ seen_over base (live transaction.now.acts) rid.now }
{
    match last_put(transaction.acts.items(), rid) {
        Some(put) => lent_value(put),
        None => old,
    }
}

/// The value of the first of the rows that is of the record.
pub fn find_row<'a>(rows: &'a [(Rid, Bytes)], rid: &Rid) -> Option<&'a [u8]>
    ensures { option_copied result ≡ contents rows.now rid.now }
{
    for (at, value) in rows {
        if *rid == *at {
            return Some(value.items());
        }
    }
    None
}
