//! What an undo finds and keeps: laws, the contract of a call that does nothing.

ghost use Rattle.sd_update.specs.Undoing.{UndoFindsCopy, UndoFindsRoom, UndoFindsTop, UndoIsGood, UndoIsSpelled};

/// A transaction that rolls back undoes the last of its open records. Its log has room for that, memory and an LSN, and its page
/// has the slot; the invariant holds then, and one put less is live.
pub fn undo<M: sd_state::laws::Moment>()
    ensures good { UndoIsGood M.leaves }
    ensures room { UndoFindsRoom M.leaves }
    ensures spelled { UndoIsSpelled M.leaves }
    ensures top { UndoFindsTop M.leaves }
    ensures copy { UndoFindsCopy M.leaves }
{}
