//! What is told of devices that aren't sound: a law, the contract of a call that does nothing.

ghost use Rattle.sd_recovered.specs.Laws.{FailsAtOnePlace};

/// Devices fail first at one place: of the seven checks one is the first that fails, and it has one least place.
pub fn one_place()
    ensures { FailsAtOnePlace }
{}
