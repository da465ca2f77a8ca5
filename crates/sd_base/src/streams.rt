//! Where bytes come from and go to.

ghost use Rattle.std.specs.Prelude.{◌≡◌, ℕ, ◌<◌, ◌≤◌, List, length, take, Option, IfOk, OnErr};
ghost use Rattle.sd_base.specs.Streams.{Rises, Gives, Appends};

use crate::refusal::Failed;

/// Where bytes come from.
pub trait Source {
    /// The bytes still to come, where the source tells them.
    ghost left: { Self → Option (List ℕ) };

    /// How many calls failed. It never falls, and stays at the greatest u64.
    ghost faults: { Self → ℕ };

    /// Moves the next bytes into the front of `out` and answers how many. 0 for a non-empty `out` is the end of
    /// the input. `Failed` comes only where the count of faults rose, and moves nothing.
    fn take(&mut self, out: &mut [u8]) -> Result<usize, Failed>
        ensures bound { IfOk result (λ n. n ≤ length out.new) }
        ensures gives { IfOk result (λ n. Gives (left self.old) n out.new (left self.new)) }
        ensures stays { OnErr result (left self.new ≡ left self.old) }
        ensures cause { OnErr result (Rises (faults self.old) (faults self.new)) }
        ensures count { faults self.old ≤ faults self.new };
}

/// Where bytes go to.
pub trait Sink {
    /// The bytes that were written, where the sink tells them.
    ghost written: { Self → Option (List ℕ) };

    /// How many calls failed. It never falls, and stays at the greatest u64.
    ghost faults: { Self → ℕ };

    /// Writes a front of the bytes and answers its length, at least 1 of a non-empty piece. `Failed` comes only
    /// where the count of faults rose, and writes nothing.
    fn put(&mut self, bytes: &[u8]) -> Result<usize, Failed>
        ensures bound { IfOk result (λ n. n ≤ length bytes.now) }
        ensures goes_on { IfOk result (λ n. 0 < length bytes.now → 0 < n) }
        ensures appends { IfOk result (λ n. Appends (written self.old) (take n bytes.now) (written self.new)) }
        ensures stays { OnErr result (written self.new ≡ written self.old) }
        ensures cause { OnErr result (Rises (faults self.old) (faults self.new)) }
        ensures count { faults self.old ≤ faults self.new };
}
