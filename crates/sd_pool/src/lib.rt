//! The buffer pool of one instance: page images in frames, in the order of their last use.
//!
//! Meaning: a pool is a list of pages with their images, the last used first (`specs/Buffers.antt`).
//! Keeps: no page is held twice, and at most as many as there are frames (`IsPool`).
//! Promises: `put`, `get`, `touch` and `take` do what their clauses say of each page, and move no other; `victim` is
//! the page whose last use is longest ago; `look` doesn't use a page; an image written through `get` is the page's, and no
//! other changes (`laws.rt`).
//! Refuses: `PoolFull` in `put`, exactly where a further page finds no frame.
//! Knows nothing of: who else holds a page, whether it is changed, devices, logs.
//! Stands on: sd_base, sd_page.
//!
//! To change:
//! - free: bodies, the structure inside
//! - dear: `Buffers`, the law, the clauses of `put`, `take` and `look`
//! - frozen: nothing
#![tactic(auto)]

pub mod laws;
mod pool;

pub use pool::Pool;
