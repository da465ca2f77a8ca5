//! What a run that goes on from entry to entry says of faults, of images on the way, and of its opening: laws, each the contract
//! of a call that does nothing.

ghost use Rattle.sd_world.specs.Serving.{telling};
ghost use Rattle.sd_drive.specs.Running.{RunsHaveWay};
ghost use Rattle.sd_drive.specs.Behind.{OpeningRecovers};

use sd_rig::Rig;

/// The entries of a run lead from world to world. None tells a fault of a device that wasn't there, and none is untold but those of a
/// failure of all; and each image that a crash may have left at any moment of the run stands for the state of a world on the way.
pub fn runs<G: Rig>()
    ensures way { RunsHaveWay (telling G.seen G.leaves G.moment G.since G.faults) }
{}

/// An opening goes on, or is done and leaves no instance down or in recovery, and no page with one that isn't up, unless a device
/// fails in it. Each recovery of it comes to its end, and none of its pages is pulled in vain.
pub fn openings()
    ensures recovers { OpeningRecovers }
{}
