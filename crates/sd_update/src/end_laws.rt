//! How the invariant stands once a record without a page has come: laws, each the contract of a call that does nothing.

ghost use Rattle.sd_update.specs.Sealing.{CheckSeals, CommitSeals, EndSeals, StartSeals};

/// A record without a page comes to a log: the End or the Commit of a transaction that has a record, which is never refused, and
/// whose row is shut; one of a checkpoint; or the Start of the next epoch.
pub fn sealing<M: sd_state::laws::Moment>()
    ensures end { EndSeals M.leaves }
    ensures commit { CommitSeals M.leaves }
    ensures check { CheckSeals M.leaves }
    ensures start { StartSeals M.leaves }
{
    sd_txn::laws::owed_by_shut();
}
