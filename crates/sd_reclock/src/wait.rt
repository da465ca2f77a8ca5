//! What a transaction waits for, and which modes conflict.

ghost use Rattle.std.specs.Prelude.{◌↔◌, IsTrue};
ghost use Rattle.sd_base.specs.Waits.{Clash};

use sd_base::{Mode, Rid};

/// The lock that a transaction waits for.
#[derive(Clone, Copy)]
pub struct Asked {
    pub rid: Rid,
    pub mode: Mode,
}

/// Whether two locks of two transactions on one record conflict.
pub fn clashes(mode: Mode, other: Mode) -> bool
    ensures { IsTrue result ↔ Clash mode other }
{
    match (mode, other) {
        (Mode::Shared, Mode::Shared) => false,
        (Mode::Shared, Mode::Excl) | (Mode::Excl, _) => true,
    }
}
