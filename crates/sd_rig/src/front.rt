//! The bytes of a device, of which a front is kept: what lies behind it was never written.

ghost use Rattle.std.specs.Prelude.{◌≡◌, ◌+◌, ◌≤◌, ◌<◌, ◌++◌, length, take, drop, get_or, set, vec_capacity, IfOk};
ghost use Rattle.sd_rig.specs.Devices.{overwritten};
ghost use Rattle.sd_rig.specs.Disk.{copies};
ghost use Rattle.sd_rig.specs.Front.{filled};

use std::alloc::{AllocError, Global};
use std::marker::Model;

/// Bytes that are zeros from the beginning. Those up to the last that was written are kept. There is memory for the whole from
/// the beginning, which isn't touched before it is kept: so no later call takes any.
#[derive(Drop)]
pub struct Front {
    kept: Vec<u8>,
    len: usize,
}

impl Model for Front {
    ghost use Rattle.std.specs.Prelude.{List, ℕ, vec_capacity};
    ghost use Rattle.std.specs.Coded.{coded_list, coded_ℕ};
    ghost use Rattle.sd_rig.specs.Front.{IsFront, filled};

    ghost Value = { List ℕ };

    ghost coded = { coded_list coded_ℕ };

    ghost view = { λ f. filled f.len f.kept.items };

    ghost invariant = { λ f. IsFront f.len f.kept.items (vec_capacity f.kept) };
}

impl Front {
    /// So many zeros, of which none is kept.
    pub fn zeros(alloc: Global, len: usize) -> Result<Front, AllocError>
        ensures { IfOk result (λ front. front ≡ copies len 0) }
    {
        Ok(Front {
            kept: Vec::with_capacity(alloc, len)?,
            len,
        })
    }

    /// A copy of all bytes.
    #[tactic(auto, using(crate::proofs::Fronts::length_filled))]
    pub fn image(&self, alloc: Global) -> Result<Vec<u8>, AllocError>
        ensures { IfOk result (λ image. image.items ≡ self.now) }
    {
        let mut image = Vec::with_capacity(alloc, self.len)?;
        self.copy(0, self.len, &mut image);
        Ok(image)
    }

    /// The byte at `at`.
    pub fn get(&self, at: usize) -> u8
        ensures { result ≡ get_or self.now at 0 }
    {
        if at < self.kept.len() {
            self.kept[at]
        } else {
            0
        }
    }

    /// Fills `out` with the bytes at `at`.
    pub fn read(&self, at: usize, out: &mut [u8])
        requires { at + length out.old ≤ length self.now }
        ensures { out.new ≡ take (length out.old) (drop at self.now) }
    {
        let known = self.known(at, out.len());
        let (front, rest) = out.split_at_mut(known.len());
        front.copy_from_slice(known);
        rest.fill(0);
    }

    /// Puts so many bytes from `at` on behind those of `to`, which has room for them.
    pub fn copy(&self, at: usize, count: usize, to: &mut Vec<u8>)
        requires fits { at + count ≤ length self.now }
        requires room { length to.old.items + count ≤ vec_capacity to.old }
        ensures items { to.new.items ≡ to.old.items ++ take count (drop at self.now) }
        ensures room { vec_capacity to.old ≤ vec_capacity to.new }
    {
        let len = to.len() + count;
        to.extend_from_slice(self.known(at, count)).unwrap();
        to.resize(len, 0).unwrap();
    }

    /// Writes the bytes at `at`. All bytes before them are kept from then on.
    #[tactic(auto, using(crate::proofs::Fronts::length_filled))]
    pub fn write(&mut self, at: usize, bytes: &[u8])
        requires { at + length bytes.now ≤ length self.old }
        ensures { self.new ≡ overwritten at bytes.now self.old }
    {
        let kept = self.kept.len();
        let end = at + bytes.len();
        if end <= kept {
            self.kept[at..end].copy_from_slice(bytes);
        } else {
            self.kept.resize(at, 0).unwrap();
            self.kept.extend_from_slice(bytes).unwrap();
        }
    }

    /// Sets the byte at `at`.
    pub fn set(&mut self, at: usize, byte: u8)
        requires { at < length self.old }
        ensures { self.new ≡ set self.old at byte }
    {
        self.write(at, &[byte]);
    }

    // Of so many bytes from `at` on those that are kept.
    fn known(&self, at: usize, count: usize) -> &[u8]
        requires { at + count ≤ length self.now }
        ensures fits { length result.now ≤ count }
        ensures part { filled count result.now ≡ take count (drop at self.now) }
    {
        let kept = &self.kept[at.min(self.kept.len())..];
        &kept[..count.min(kept.len())]
    }
}
