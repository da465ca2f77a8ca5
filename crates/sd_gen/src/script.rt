//! The script that a number gives, as text.

ghost use Rattle.std.specs.Prelude.{◌≡◌, ◌++◌, IfOk, OnOk};
ghost use Rattle.sd_gen.specs.Generated.{gen_text, head_text, transfers_text};

use crate::draws::Draws;
use crate::transfer::{Transfer, push_transfer};
use sd_base::Memory;
use sd_report::push_word;
use std::alloc::Global;

/// The script of so many transfers that the number gives: ten accounts of 100 each are made and committed, then comes transfer
/// after transfer, and last the table. `Memory` comes where there is none for the text.
pub fn generate(alloc: Global, number: u64, count: u32) -> Result<Vec<u8>, Memory>
    ensures { IfOk result (λ text. text.items ≡ gen_text number count) }
{
    let mut out = Vec::new(alloc);
    push_head(&mut out)
        .and(push_transfers(&mut out, number, count))
        .and(push_word(&mut out, b"table\n"))?;
    Ok(out)
}

// The lines before the transfers.
fn push_head(out: &mut Vec<u8>) -> Result<(), Memory>
    ensures { OnOk result (out.new.items ≡ out.old.items ++ head_text) }
{
    push_word(
        out,
        b"complex 4 4 2\n1 begin s\n\
insert s 0 100 8\ninsert s 1 100 8\ninsert s 2 100 8\ninsert s 3 100 8\n\
insert s 0 100 8\ninsert s 1 100 8\ninsert s 2 100 8\ninsert s 3 100 8\n\
insert s 0 100 8\ninsert s 1 100 8\ncommit s\n",
    )
}

// The transfers, one after another.
fn push_transfers(out: &mut Vec<u8>, number: u64, count: u32) -> Result<(), Memory>
    ensures { OnOk result (out.new.items ≡ out.old.items ++ transfers_text 1 count number) }
{
    let mut draws = Draws::from(number);
    for done in 0..count {
        let transfer = Transfer::of(&mut draws);
        push_transfer(out, u64::from(done) + 1, transfer)?;
    }
    Ok(())
}
