//! A complex that fits a world: laws, each the contract of a call that does nothing.

ghost use Rattle.std.specs.Prelude.{ℕ, List};
ghost use Rattle.sd_fits.specs.Closed.{AllFail, AllFailAgain, ClosedReopens, ClosedStays};
ghost use Rattle.sd_fits.specs.Fits.{FitsStands, FreshFits};
ghost use Rattle.sd_fits.specs.Opened.{OpenedFits};
ghost use Rattle.sd_fits.specs.Sums.{LeftIsWithinSums};

/// What a crash may leave of each device, at one moment.
pub trait Moment {
    ghost leaves: { ℕ → List ℕ → Type 0 };
}

/// A complex that fits a world: whatever a crash leaves of it stands for the world's state and is within its sums; a fresh
/// complex fits the world in which nothing has happened, and one that is opened from sound devices that of which they tell.
pub fn worlds<M: Moment>()
    ensures stands { FitsStands M.leaves }
    ensures sums { LeftIsWithinSums M.leaves }
    ensures fresh { FreshFits M.leaves }
    ensures opened { OpenedFits M.leaves }
{}

/// A complex that is closed, before an event and after it: once all instances have failed the devices that are left fit the
/// world in which they have, and go on fitting it; and the complex that opens again from what a crash leaves of them fits the
/// world of its reopening.
pub fn closings<M: Moment, N: Moment>()
    ensures all_fail { AllFail M.leaves N.leaves }
    ensures all_fail_again { AllFailAgain M.leaves N.leaves }
    ensures stays { ClosedStays M.leaves N.leaves }
    ensures reopens { ClosedReopens M.leaves N.leaves }
{}
