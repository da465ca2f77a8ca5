//! An area as it was read.

use crate::placed::Placed;
use crate::read::ReadLog;
use sd_base::Refusal;

/// What an area of groups is read as: a log, where they keep the format. Else `fault` is what breaks it, `BadLog` with the
/// place of a group's gate or `BadRecord` with the place where no record starts, both counted from the area's start, and
/// `front` has the records that stand before it, those of the same group included, in their order.
#[derive(Drop)]
pub enum Area {
    Whole(ReadLog),
    Broken { front: Vec<Placed>, fault: Refusal },
}
