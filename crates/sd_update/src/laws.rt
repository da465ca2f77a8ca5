//! What a change keeps: a law, the contract of a call that does nothing.

ghost use Rattle.sd_update.specs.Changing.{ChangeKeepsGood};

/// A change of a record keeps the invariant.
pub fn change<M: sd_state::laws::Moment>()
    ensures good { ChangeKeepsGood M.leaves }
{}
