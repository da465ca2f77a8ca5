//! Which calls fail, and how failures are counted. It sees no device.

ghost use Rattle.std.specs.Prelude.{◌≡◌, ◌≤◌, is_ok, not, if◌then◌else◌};
ghost use Rattle.sd_rig.specs.Troubles.{after_call, meets, raised};

use sd_base::{Failed, Trouble};

/// Whether the next call fails; it is counted.
pub fn next_call(trouble: &mut Trouble) -> bool
    ensures fails { result ≡ meets trouble.old }
    ensures after { trouble.new ≡ after_call trouble.old }
{
    match *trouble {
        Trouble::Clear => false,
        Trouble::Fuse(calls) => {
            *trouble = Trouble::Fuse(calls.saturating_sub(1));
            calls == 0
        }
        Trouble::Fault(calls) => {
            *trouble = Trouble::Fault(calls.saturating_sub(1));
            calls == 1
        }
    }
}

/// Raises a count, which stays at the greatest u64.
pub fn raise(count: &mut u64)
    ensures raised { count.new ≡ raised count.old }
    ensures grows { count.old ≤ count.new }
{
    *count = count.saturating_add(1);
}

/// The answer of a call that trouble met or not; a failure is counted.
pub fn answer(faults: &mut u64, met: bool) -> Result<(), Failed>
    ensures ok { is_ok result ≡ not met }
    ensures faults { faults.new ≡ (if is_ok result then faults.old else raised faults.old) }
    ensures grows { faults.old ≤ faults.new }
{
    if met {
        raise(faults);
        return Err(Failed);
    }
    Ok(())
}
