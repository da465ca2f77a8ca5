//! A chain of placed records replayed on the image of their page.

ghost use Rattle.std.specs.Prelude.{◌≡◌, ◌↔◌, false, true, All, IsTrue};
ghost use Rattle.sd_log.specs.Logs.{AreSpelled, flats};
ghost use Rattle.sd_chain.specs.Pages as pages;
ghost use Rattle.sd_chain.specs.Pages.{FitAll};
ghost use Rattle.sd_chain.specs.Records.{IsPageRecord};
ghost use Rattle.sd_redo.specs.Replayed.{IsStopped};

use crate::redoing::{fits, redo};
use sd_log::Placed;
use sd_page::Image;

/// Redoes those records of a chain that are above the image's LSN, one after another, while they fit. `true` where all of
/// them fit; else the image has those in front of the first one that doesn't. It takes no memory.
pub fn try_replay(image: &mut Image, chain: &[Placed]) -> bool
    requires spelled { AreSpelled chain.now }
    requires pages { All (λ x. IsPageRecord x.rec) chain.now }
    ensures fit { IsTrue result ↔ FitAll image.old.lsn image.old (flats chain.now) }
    ensures replayed { result ≡ true → image.new ≡ pages.replay image.old.lsn image.old (flats chain.now) }
    ensures stopped { result ≡ false → IsStopped image.old image.new (flats chain.now) }
{
    let floor = image.lsn();
    for found in chain {
        let change = &found.rec;
        if change.lsn() <= floor {
            continue;
        }
        if !fits(image, change) {
            return false;
        }
        redo(image, change);
    }
    true
}

/// Redoes those records of a chain that are above the image's LSN, which fit it one after another. It takes no memory.
pub fn replay(image: &mut Image, chain: &[Placed])
    requires spelled { AreSpelled chain.now }
    requires pages { All (λ x. IsPageRecord x.rec) chain.now }
    requires joins { FitAll image.old.lsn image.old (flats chain.now) }
    ensures { image.new ≡ pages.replay image.old.lsn image.old (flats chain.now) }
{
    let all = try_replay(image, chain);
    prove!(all);
}
