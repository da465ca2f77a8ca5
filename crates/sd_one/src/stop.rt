//! Why a call stops.

use sd_base::{Failed, Memory, Refusal};

/// Why a call stops.
#[derive(Debug, Drop)]
pub enum Stop {
    /// A call of the complex was refused.
    Refused(Refusal),
    /// What the call is for doesn't stand: the page, the transaction, or the value that is to be put.
    Odd,
}

impl From<Refusal> for Stop {
    fn from(refusal: Refusal) -> Self {
        Stop::Refused(refusal)
    }
}

impl From<Memory> for Stop {
    fn from(_: Memory) -> Self {
        Stop::Refused(Refusal::Memory)
    }
}

impl From<Failed> for Stop {
    fn from(_: Failed) -> Self {
        Stop::Refused(Refusal::Failed)
    }
}
