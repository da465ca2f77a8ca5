//! Who stands in whose way in the serial table.

ghost use Rattle.sd_model.specs.Waits.{stands as stands_in};
ghost use Rattle.sd_oracle.specs.Lists.{state_of};

use crate::SerialTable;
use crate::asked::claim_of;
use sd_base::{Memory, TxnId};
use sd_reclock::{Asked, Standing};
use std::alloc::Global;

/// The serial table as a keeper of claims.
#[derive(Drop)]
pub struct Table {
    pub serial: SerialTable,
}

impl Standing for Table {
    ghost stands = { λ s t wait u. stands_in (state_of s.serial) t wait u };

    fn obstacles(&self, alloc: Global, t: &TxnId, wait: &Asked) -> Result<Vec<TxnId>, Memory> {
        self.serial
            .obstacles(alloc, t, &wait.rid, claim_of(wait.mode))
    }
}
