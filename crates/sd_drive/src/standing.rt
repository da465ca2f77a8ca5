//! How an instance stands in a hall, and instances and pages by their numbers.

ghost use Rattle.std.specs.Prelude.{◌≡◌, ◌<◌, ◌≤◌};
ghost use Rattle.sd_world.specs.Serving.{Core};
ghost use Rattle.sd_hall.specs.Bodies.{fits_in};
ghost use Rattle.sd_drive.specs.Bodies.{status_in};

use sd_base::{InstNo, PageNo, Status};
use sd_hall::Hall;
use sd_rig::Rig;

/// How the instance stands; closed, where no complex is open.
pub fn status_of<G: Rig>(hall: &Hall<G>, inst: InstNo) -> Status
    requires fits { (w : Core) × fits_in G.seen G.leaves hall.now.body w }
    ensures { result ≡ status_in hall.now.body inst }
{
    match hall.complex() {
        Some(c) => c.status(inst),
        None => Status::Closed,
    }
}

/// The instance of this number.
pub fn inst_no(n: u8) -> InstNo
    requires some { 1 ≤ n }
    requires most { n ≤ 8 }
    ensures { result ≡ n }
{
    InstNo::new(n).unwrap()
}

/// The page of this number.
pub fn page_no(n: u16) -> PageNo
    requires { n < 1024 }
    ensures { result ≡ n }
{
    PageNo::new(n).unwrap()
}
