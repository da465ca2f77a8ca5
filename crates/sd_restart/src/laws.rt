//! What one run leaves the next one opens to: a law, the contract of a call that does nothing.

ghost use Rattle.sd_restart.specs.Laws.{StandingAreSound, StandingOpen};

/// Devices that stand for a state are sound, so that they open; and each record of the table that they open to is what the committed
/// transactions left, with those of the transactions in doubt whose Commit is kept.
pub fn going_on()
    ensures sound { StandingAreSound }
    ensures table { StandingOpen }
{}
