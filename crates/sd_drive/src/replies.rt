//! What the last reply of a hall tells.

ghost use Rattle.std.specs.Prelude.{◌≡◌};
ghost use Rattle.sd_drive.specs.Driven.{ends_failed};

use sd_hall::Hall;
use sd_rig::Rig;

/// Whether the last entry tells that a device failed.
pub fn ends_failed<G: Rig>(hall: &Hall<G>) -> bool
    ensures { result ≡ ends_failed hall.now.book.entries }
{
    match hall.book().last_reply() {
        Some(reply) => reply.is_failed(),
        None => false,
    }
}
