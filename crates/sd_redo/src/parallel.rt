//! Chains replayed on the images of many pages, by several threads where there is much to redo.

ghost use Rattle.std.specs.Prelude.{◌≡◌, ℕ, ◌<◌, ◌≤◌, All, length, slice_index_or};
ghost use Rattle.sd_redo.specs.PageReplays.{CanReplay, replayed};

use crate::replaying::replay;
use sd_log::Placed;
use sd_page::Image;
use std::thread;
use std::thread::Threads;

/// Starting a thread takes as long as redoing some hundreds of records: fewer than this in all chains are left to one.
const RECORDS_FOR_THREADS: usize = 2_048;

/// The image of a page, and a chain of placed records to be replayed on it.
#[derive(Drop)]
pub struct PageReplay {
    pub image: Box<Image>,
    pub chain: Vec<Placed>,
}

/// Replays each chain on its image, in place, in at most so many threads: in the caller's alone where the chains have few
/// records, or no thread can be started. Each image is what `replay` leaves of it, however many there are. It takes no memory.
pub fn replay_all<R: Threads + Sync>(rt: &R, pages: &mut [PageReplay], workers: u8)
    requires workers { 1 ≤ workers }
    requires joins { All CanReplay pages.old }
    ensures images { (i : ℕ) (d : PageReplay) → i < length pages.old
        → (slice_index_or pages.new i d).image.value ≡ replayed (slice_index_or pages.old i d) }
    ensures chains { (i : ℕ) (d : PageReplay) → i < length pages.old
        → (slice_index_or pages.new i d).chain ≡ (slice_index_or pages.old i d).chain }
    ensures same { length pages.new ≡ length pages.old }
{
    let threads = if are_few(pages) { 1 } else { workers };
    thread::for_each_mut(rt, pages, threads as usize, &|_, page| replay_one(page));
}

// The same of one page.
fn replay_one(page: &mut PageReplay)
    requires joins { CanReplay page.old }
    ensures image { page.new.image.value ≡ replayed page.old }
    ensures chain { page.new.chain ≡ page.old.chain }
{
    replay(&mut page.image, &page.chain);
}

// Whether all chains have few records.
fn are_few(pages: &[PageReplay]) -> bool {
    let mut records: usize = 0;
    for page in pages {
        records = records.saturating_add(page.chain.len());
    }
    records < RECORDS_FOR_THREADS
}
