//! A run with checkpoints: begun, ended, begun anew, and what a device that fails, a fall and a join make of one.

use crate::lines::Ask::{
    Alone, Arm, Begin, CheckBegin, CheckEnd, Commit, Fail as Falls, FailAll, Give, Insert, Join,
    List, RecoverBy, RecoverStep, Reopen, Show, Take,
};
use crate::lines::Say::{
    Asked, At, Began, Did, Finished, Gave, Have, Joined, No, Rows, Shown, Step,
};
use crate::lines::Spot::{Changed, Lost};
use crate::lines::Why::{Down, Failed, NoCheck};
use crate::lines::{FIRST, Line, ONE, TWO};
use sd_base::Trouble;

/// Of instance 1, while the second has the page that it changed.
pub static CHECKPOINTS: &[Line] = &[
    (ONE, CheckBegin, No(Down)),
    (ONE, Join, Joined(1)),
    (TWO, Join, Joined(1)),
    (ONE, CheckEnd, No(NoCheck)),
    (ONE, Begin, Began(FIRST)),
    (ONE, Alone(0), Have),
    (FIRST, Insert(0, b"red", 3), At(0)),
    (FIRST, Commit, Did),
    (TWO, Alone(0), Asked(ONE)),
    (ONE, Give(0), Gave(TWO)),
    (TWO, Take(0), Did),
    (ONE, CheckBegin, Did),
    (TWO, CheckEnd, No(NoCheck)),
    (ONE, CheckEnd, Did),
    (ONE, CheckEnd, No(NoCheck)),
    // The read of the former master is the fifth call: where it fails the checkpoint stays begun.
    (ONE, CheckBegin, Did),
    (ONE, CheckBegin, Did),
    (ONE, Arm(Trouble::Fault(5)), Did),
    (ONE, CheckEnd, No(Failed)),
    (ONE, CheckEnd, Did),
    // The third put closes a slot first; where that fails its instance is down.
    (ONE, CheckBegin, Did),
    (ONE, Arm(Trouble::Fault(6)), Did),
    (ONE, CheckEnd, No(Failed)),
    (ONE, CheckEnd, No(Down)),
    (ONE, Show(0), Shown(Changed(TWO), 2)),
    (ONE, RecoverBy(TWO), Did),
    (ONE, RecoverStep, Step),
    (ONE, RecoverStep, Step),
    (ONE, RecoverStep, Finished),
    (ONE, CheckBegin, No(Down)),
    (ONE, Join, Joined(2)),
    (ONE, CheckEnd, No(NoCheck)),
    // A fall ends it, and so does a failure of all; one that is begun before a join is ended behind it.
    (ONE, CheckBegin, Did),
    (ONE, Falls, Did),
    (ONE, CheckEnd, No(Down)),
    (TWO, CheckBegin, Did),
    (ONE, FailAll, Did),
    (ONE, CheckBegin, No(Down)),
    (ONE, Reopen, Did),
    (ONE, Show(0), Shown(Lost, 0)),
    (ONE, RecoverBy(ONE), Did),
    (ONE, CheckBegin, No(Down)),
    (ONE, RecoverStep, Step),
    (ONE, RecoverStep, Step),
    (ONE, RecoverStep, Step),
    (ONE, RecoverStep, Finished),
    (ONE, CheckBegin, Did),
    (ONE, Join, Joined(3)),
    (ONE, CheckEnd, Did),
    (ONE, Alone(0), Have),
    (ONE, List(0), Rows(&[(0, b"red")])),
];
