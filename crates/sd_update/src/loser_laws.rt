//! What the undo of a loser keeps: a law, the contract of a call that does nothing.

ghost use Rattle.sd_update.specs.UndoingFor.{UndoForIsGood};

/// A loser's last open record is undone by the instance that recovers the loser's: the invariant holds then for the same state of
/// the serial table, and the fall of that instance is due by that log until it is forced.
pub fn undo_for<M: sd_state::laws::Moment>()
    ensures good { UndoForIsGood M.leaves }
{}
