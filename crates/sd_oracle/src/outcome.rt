//! What a reply doesn't say of the state that it leaves.

use sd_base::{InstNo, Rid, Sequence, TxnId};
use std::alloc::Global;

/// What a caller tells beside a reply, where the serial table leaves several states open (`specs/Outcomes.antt`).
#[derive(Drop)]
pub struct Outcome {
    /// At `Failed`: the instance that fell, if one did.
    pub fell: Option<InstNo>,
    /// At the end of a recovery, and at a reopening: those in doubt that were found committed, in their order.
    pub found: Sequence<TxnId>,
    /// At a reopening: the losers, and those in doubt, of which nothing was found.
    pub gone: Sequence<TxnId>,
    /// At a reopening: the exclusive claims that aren't found again.
    pub freed: Sequence<(TxnId, Rid)>,
    /// At a reopening: whether a page is lost, so that instances without losers are down too.
    pub lost: bool,
}

impl Outcome {
    /// Nothing fell, nobody was found committed, each loser stays with its exclusive claims, no page is lost.
    pub fn plain(alloc: Global) -> Outcome {
        Outcome {
            fell: None,
            found: Sequence::of(Vec::new(alloc)),
            gone: Sequence::of(Vec::new(alloc)),
            freed: Sequence::of(Vec::new(alloc)),
            lost: false,
        }
    }
}
