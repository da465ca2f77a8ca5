//! A record of a log with its place.

use sd_logrec::Record;

/// A record of a log. `place` is where it stands, in bytes from the area's start; one that isn't forced has the place
/// that it gets when the tail is forced.
#[derive(Drop)]
pub struct Placed {
    pub place: u32,
    pub rec: Record,
    pub forced: bool,
}
