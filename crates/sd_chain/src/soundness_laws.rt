//! What each event does to the seven checks in all images that a crash may leave: laws, each the contract of a call that does
//! nothing. They are stated for moments that are fixed: a crate whose moments move with a rig cites the lemmas of the same
//! statements, which `proofs` lends for any.

ghost use Rattle.std.specs.Prelude.{ℕ, List};
ghost use Rattle.sd_chain.specs.ChecksKept.{BlankIsSound, ChangeOwes, DroppedKeeps, EndHasRoom, EndKeeps, EndOwes, FailedForceKeeps, FailedForceLeaves, FirstChangeOwes, ForceLeavesSound, ForcedKeeps, IdleEndOwes, LaterKeeps, LaterKeepsEpoch, LeftIsSound, MasterPutKeeps, MasterPutLeavesSound, NewestHasLsns, NextLsnIsThere, OpenedIsSound, OthersHaveNoEpoch, OthersKeepEpoch, OwnIsBegun, OwnMayCome, PlainOwes, PutKeeps, PutLeaves, PutLeavesSound, SettledKeeps, StartMovesEpoch, SyncedKeeps, TestedKeeps, TwiceForceLeavesSound, TwiceLeftIsSound, TwicePutLeavesSound, UndoHasRoom, UndoKeeps, UndoOwes, ZerosAreBlank};

/// A moment: what a crash may leave of each device then.
pub trait Moment {
    ghost leaves: { ℕ → List ℕ → Type 0 };
}

/// Between two calls: each image that a crash may leave passes the seven checks.
pub fn between<M: Moment>()
    ensures { LeftIsSound M.leaves }
{}

/// An undo is appended: its bytes and its LSN are reserved, so there is room for it.
pub fn undo<M: Moment>()
    ensures keeps { UndoKeeps M.leaves }
    ensures room { UndoHasRoom }
    ensures lsn { NextLsnIsThere M.leaves }
{}

/// A Commit or an End is appended, of a transaction that has a record: for it, too, bytes and an LSN are reserved.
pub fn seal<M: Moment>()
    ensures keeps { EndKeeps M.leaves }
    ensures room { EndHasRoom }
    ensures lsn { NextLsnIsThere M.leaves }
{}

/// Any other record is appended, a Start, a change or one of a checkpoint: it isn't refused as LogFull or LsnEnd.
pub fn append<M: Moment>()
    ensures keeps { TestedKeeps M.leaves }
    ensures own { OwnMayCome M.leaves }
    ensures others { OthersHaveNoEpoch }
{}

/// What one more record changes of what a log owes: the bytes and the records that end what is open in it.
pub fn owing()
    ensures plain { PlainOwes }
    ensures change { ChangeOwes }
    ensures first_change { FirstChangeOwes }
    ensures undo { UndoOwes }
    ensures end { EndOwes }
    ensures idle_end { IdleEndOwes }
{}

/// The epoch that a log is in: only a Start moves it, and whoever has a record in the log is of a begun one.
pub fn epochs()
    ensures begun { OwnIsBegun }
    ensures others { OthersKeepEpoch }
    ensures start { StartMovesEpoch }
    ensures later { LaterKeepsEpoch }
{}

/// A log is forced: in each image meanwhile it stands with its tail or without it, and so it does after a failure.
pub fn force<M: Moment, N: Moment>()
    ensures during { ForceLeavesSound M.leaves }
    ensures ok { ForcedKeeps M.leaves N.leaves }
    ensures failed { FailedForceKeeps M.leaves N.leaves }
    ensures outcomes { FailedForceLeaves M.leaves N.leaves }
{}

/// The tail of a settled log is dropped.
pub fn drop_tail<M: Moment>()
    ensures { DroppedKeeps M.leaves }
{}

/// A log's device is synced, and the log is read from it again.
pub fn settle<M: Moment, N: Moment>()
    ensures { SettledKeeps M.leaves N.leaves }
{}

/// Devices are synced, of which less may be left then.
pub fn sync<M: Moment, N: Moment>()
    ensures { SyncedKeeps M.leaves N.leaves }
{}

/// A page is put: in each image meanwhile, and after an answer of either kind, its twin is the old one or the new one.
pub fn put_page<M: Moment, N: Moment>()
    ensures during { PutLeavesSound M.leaves }
    ensures keeps { PutKeeps M.leaves N.leaves }
    ensures outcomes { PutLeaves M.leaves N.leaves }
    ensures lsns { NewestHasLsns M.leaves }
{}

/// Devices on which no gate is open, and new logs.
pub fn blank<M: Moment>()
    ensures sound { BlankIsSound M.leaves }
    ensures zeros { ZerosAreBlank }
{}

/// Sound devices that were synced, and logs that were read from them.
pub fn opening<M: Moment>()
    ensures { OpenedIsSound M.leaves }
{}

/// A log begins at a later place, which its master names since a put that was Ok.
pub fn later_start<M: Moment, N: Moment>()
    ensures { LaterKeeps M.leaves N.leaves }
{}

/// A master is put that names a later place: each image meanwhile has the one place or the other, and so it is after an answer
/// of either kind.
pub fn put_master<M: Moment, N: Moment>()
    ensures during { MasterPutLeavesSound M.leaves }
    ensures keeps { MasterPutKeeps M.leaves N.leaves }
    ensures outcomes { PutLeaves M.leaves N.leaves }
{}

/// Two start places of a log: how its device is left with the one and with the other.
pub trait Places {
    ghost first: { List ℕ → Type 0 };

    ghost second: { List ℕ → Type 0 };
}

/// While a log has two start places: between calls, while another log is forced, and while a page is put. Each place's half is
/// an `IsSoundly` of its own, to which the laws of other events apply; to settle the log is `settle` in the half that was read.
pub fn two_places<M: Moment, P: Places>()
    ensures left { TwiceLeftIsSound M.leaves P.first P.second }
    ensures force { TwiceForceLeavesSound M.leaves P.first P.second }
    ensures put { TwicePutLeavesSound M.leaves P.first P.second }
{}
