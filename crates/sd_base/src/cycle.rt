//! A circle of waits.

ghost use Rattle.std.specs.Prelude.{◌≡◌, IfOk};

use crate::TxnId;
use crate::refusal::Memory;
use crate::sequence::Duplicate;
use std::alloc::Global;
use std::marker::Model;

/// Transactions each of which waits for the next. Contracts see it as their list. It stands behind a box, so that the refusals that
/// name none are small.
#[derive(Debug, Drop)]
pub struct Cycle {
    txns: Box<Vec<TxnId>>,
}

impl Model for Cycle {
    ghost use Rattle.std.specs.Prelude.{List};
    ghost use Rattle.sd_base.specs.declared.ids.TxnId.{TxnId};

    ghost Value = { List TxnId };

    ghost view = { λ c. c.txns.value.items };
}

impl Cycle {
    /// The circle of these transactions, or `Memory`.
    pub fn of(alloc: Global, txns: Vec<TxnId>) -> Result<Cycle, Memory>
        ensures { IfOk result (λ cycle. cycle ≡ txns.items) }
    {
        Ok(Cycle {
            txns: Box::new(alloc, txns)?,
        })
    }

    /// Its transactions.
    pub fn items(&self) -> &[TxnId]
        ensures { result.now ≡ self.now }
    {
        self.txns.as_slice()
    }
}

impl Duplicate for Cycle {
    fn copy(&self) -> Result<Self, Memory> {
        let alloc = *self.txns.allocator();
        Cycle::of(alloc, Vec::from_slice(alloc, self.txns.as_slice())?)
    }
}
