//! What a failure script may do to the devices.

/// What a crash makes of the bytes that no sync has made stable.
#[derive(Clone, Copy, Debug, PartialEq, Eq)]
pub enum Pick {
    /// They stay.
    Keep,
    /// They are as at the last sync.
    Lose,
    /// At even places they stay, at odd places they are as at the last sync.
    Tear,
    /// Each becomes 0xA5.
    Junk,
}

/// Which of the coming device calls fail.
#[derive(Clone, Copy, Debug, PartialEq, Eq)]
pub enum Trouble {
    /// None.
    Clear,
    /// So many calls pass, and every later one fails until a crash.
    Fuse(u64),
    /// The call of this number alone, counted from 1.
    Fault(u64),
}
