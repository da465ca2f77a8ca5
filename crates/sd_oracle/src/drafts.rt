//! Copies of the lists, on which several changes are tried before they count.

ghost use Rattle.std.specs.Prelude.{◌≡◌, IfOk};
ghost use Rattle.sd_oracle.specs.Lists.{meaning};

use crate::lists::Lists;
use crate::wholes::{Change, Turn, changed_parts, turned_insts};
use sd_base::{Duplicate, Memory};
use sd_model::Done;
use std::alloc::Global;

impl Lists {
    /// A copy, on which several changes are tried before they count.
    pub fn draft(&self) -> Result<Lists, Memory>
        ensures { IfOk result (λ l. meaning l ≡ meaning self.now) }
    {
        let alloc = self.alloc();
        Ok(Lists {
            start: self.start.copy()?,
            done: copies(alloc, &self.done)?,
            begun: Vec::from_slice(alloc, &self.begun)?,
            cuts: Vec::from_slice(alloc, &self.cuts)?,
            parts: changed_parts(alloc, &self.parts, &Change::Keep)?,
            insts: turned_insts(alloc, &self.insts, &Turn::Keep)?,
            rest: self.rest,
        })
    }
}

fn copies(alloc: Global, done: &[Done]) -> Result<Vec<Done>, Memory>
    ensures { IfOk result (λ copied. copied.items ≡ done.now) }
{
    let mut copied = Vec::with_capacity(alloc, done.len())?;
    for transaction in done {
        copied.push(copy_of(transaction)?)?;
    }
    Ok(copied)
}

fn copy_of(transaction: &Done) -> Result<Done, Memory>
    ensures { IfOk result (λ copied. copied ≡ transaction.now) }
{
    let acts = transaction.acts.copy()?;
    Ok(Done {
        txn: transaction.txn,
        acts,
    })
}
