//! A complex opened again.

ghost use Rattle.std.specs.Prelude.{◌≡◌, ◌≢◌, ◌⊎◌, ℕ, ◌+◌, ◌≤◌, Err, IfErr, IfOk, OnOk};
ghost use Rattle.sd_base.specs.Streams.{Rises};
ghost use Rattle.sd_base.specs.declared.refusal.Refusal.TheVariants as R;
ghost use Rattle.sd_chain.specs.Checks.{DevicesAreSound};
ghost use Rattle.sd_chain.specs.Faults.{FailsFirstAt};
ghost use Rattle.sd_model.specs.State.{State};
ghost use Rattle.sd_recovered.specs.Devices.{IsRecovered};
ghost use Rattle.sd_rig.specs.Devices.{LeavesOnly};
ghost use Rattle.sd_state.specs.Complexes.{parts};
ghost use Rattle.sd_state.specs.Good.{Good};
ghost use Rattle.sd_moves.specs.Opening.{AreOpened, OpensTo, opened_parts};
ghost use Rattle.sd_state.specs.Values.{Pending};
ghost use Rattle.sd_restart.specs.Devices.{Calms};

use crate::devices::{read_devices, settle_devices};
use crate::restored_of;
use sd_base::Refusal;
use sd_model::Table;
use sd_moves::{Restored, assemble};
use sd_rig::Rig;
use sd_state::{Complex, Shape};
use std::alloc::Global;

/// Opens a complex from nine devices, and answers the table that they stand for: each record as the committed transactions left
/// it. Each device is synced and then read. The complex has nobody up: who had begun and has no end stays as a loser, with an
/// exclusive lock on each record that it has open; each page with records that device 0 lacks is lost.
///
/// `Failed` comes where a sync or a read fails, `Damaged` exactly where the devices aren't sound, with the first place that fails,
/// as `open` of sd_recovered tells it; `Memory` for want of memory. None of them changes what the devices read. Each hands the
/// rig back.
pub fn restart<G: Rig>(
    alloc: Global,
    rig: G,
    shape: Shape,
) -> Result<(Complex<G>, Table), (Refusal, G)>
    requires least { 1 ≤ shape.frames }
    requires most { shape.frames ≤ 1024 }

    ensures sound { OnOk result (DevicesAreSound (G.seen rig)) }
    ensures recovered { IfOk result (λ x. IsRecovered (G.seen rig) x.1) }
    ensures opened { IfOk result (λ x. AreOpened shape.frames (G.seen rig) (parts x.0)) }
    ensures good { IfOk result (λ x. (m : State) → OpensTo (G.seen rig) m
        → Good (G.seen x.0.rig) (G.leaves x.0.rig) Pending.Idle (parts x.0) m) }
    ensures settled { IfOk result (λ x. (d : ℕ) → d ≤ 8 → LeavesOnly (G.seen rig d) (G.leaves x.0.rig d)) }

    ensures calms { IfOk result (λ x. Calms (G.seen rig) (G.seen x.0.rig) (G.leaves rig) (G.leaves x.0.rig)
        (G.moment rig) (G.moment x.0.rig) (G.since rig) (G.since x.0.rig)) }
    ensures tick { IfOk result (λ x. G.moment x.0.rig ≡ G.moment rig + 9) }
    ensures calms_err { IfErr result (λ e. Calms (G.seen rig) (G.seen e.1) (G.leaves rig) (G.leaves e.1)
        (G.moment rig) (G.moment e.1) (G.since rig) (G.since e.1)) }

    ensures unsound { IfErr result (λ e. (dev at : ℕ) → e.0 ≡ R.Damaged dev at → DevicesAreSound (G.seen rig) → ⊥) }
    ensures place { IfErr result (λ e. (dev at : ℕ) → e.0 ≡ R.Damaged dev at → FailsFirstAt (G.seen rig) dev at) }
    ensures refusals { IfErr result (λ e. (e.0 ≡ R.Failed) ⊎ (e.0 ≡ R.Memory) ⊎ ((dev : ℕ) × (at : ℕ) × (e.0 ≡ R.Damaged dev at))) }
    ensures cause { IfErr result (λ e. e.0 ≡ R.Failed → Rises (G.faults rig) (G.faults e.1)) }
    ensures quiet { IfOk result (λ x. G.faults x.0.rig ≡ G.faults rig) }
    ensures quiet_err { IfErr result (λ e. e.0 ≢ R.Failed → G.faults e.1 ≡ G.faults rig) }
{
    let mut rig = rig;
    match found_on(alloc, &mut rig) {
        Ok((found, table)) => match assemble(alloc, rig, shape, found) {
            Ok(c) => Ok((c, table)),
            Err((_, rig)) => Err((Refusal::Memory, rig)),
        },
        Err(refusal) => Err((refusal, rig)),
    }
}

/// Opens a complex from nine devices, as `restart` does, and answers it alone.
pub fn reopen<G: Rig>(alloc: Global, rig: G, shape: Shape) -> Result<Complex<G>, (Refusal, G)>
    requires least { 1 ≤ shape.frames }
    requires most { shape.frames ≤ 1024 }

    ensures sound { OnOk result (DevicesAreSound (G.seen rig)) }
    ensures opened { IfOk result (λ c. AreOpened shape.frames (G.seen rig) (parts c)) }
    ensures good { IfOk result (λ c. (m : State) → OpensTo (G.seen rig) m
        → Good (G.seen c.rig) (G.leaves c.rig) Pending.Idle (parts c) m) }
    ensures settled { IfOk result (λ c. (d : ℕ) → d ≤ 8 → LeavesOnly (G.seen rig d) (G.leaves c.rig d)) }

    ensures calms { IfOk result (λ c. Calms (G.seen rig) (G.seen c.rig) (G.leaves rig) (G.leaves c.rig)
        (G.moment rig) (G.moment c.rig) (G.since rig) (G.since c.rig)) }
    ensures tick { IfOk result (λ c. G.moment c.rig ≡ G.moment rig + 9) }
    ensures calms_err { IfErr result (λ e. Calms (G.seen rig) (G.seen e.1) (G.leaves rig) (G.leaves e.1)
        (G.moment rig) (G.moment e.1) (G.since rig) (G.since e.1)) }

    ensures unsound { IfErr result (λ e. (dev at : ℕ) → e.0 ≡ R.Damaged dev at → DevicesAreSound (G.seen rig) → ⊥) }
    ensures place { IfErr result (λ e. (dev at : ℕ) → e.0 ≡ R.Damaged dev at → FailsFirstAt (G.seen rig) dev at) }
    ensures refusals { IfErr result (λ e. (e.0 ≡ R.Failed) ⊎ (e.0 ≡ R.Memory) ⊎ ((dev : ℕ) × (at : ℕ) × (e.0 ≡ R.Damaged dev at))) }
    ensures cause { IfErr result (λ e. e.0 ≡ R.Failed → Rises (G.faults rig) (G.faults e.1)) }
    ensures quiet { IfOk result (λ c. G.faults c.rig ≡ G.faults rig) }
    ensures quiet_err { IfErr result (λ e. e.0 ≢ R.Failed → G.faults e.1 ≡ G.faults rig) }
{
    let (c, _) = restart(alloc, rig, shape)?;
    Ok(c)
}

// What a complex is made of, and the table, of the devices, which are synced and read.
fn found_on<G: Rig>(alloc: Global, rig: &mut G) -> Result<(Restored, Table), Refusal>
    ensures sound { OnOk result (DevicesAreSound (G.seen rig.old)) }
    ensures recovered { IfOk result (λ x. IsRecovered (G.seen rig.old) x.1) }
    ensures found { IfOk result (λ x. (frames : ℕ) → AreOpened frames (G.seen rig.old) (opened_parts frames x.0)) }
    ensures settled { OnOk result ((d : ℕ) → d ≤ 8 → LeavesOnly (G.seen rig.old d) (G.leaves rig.new d)) }
    ensures calms { Calms (G.seen rig.old) (G.seen rig.new) (G.leaves rig.old) (G.leaves rig.new)
        (G.moment rig.old) (G.moment rig.new) (G.since rig.old) (G.since rig.new) }
    ensures tick { OnOk result (G.moment rig.new ≡ G.moment rig.old + 9) }

    ensures unsound { (dev at : ℕ) → result ≡ Err (R.Damaged dev at) → DevicesAreSound (G.seen rig.old) → ⊥ }
    ensures place { (dev at : ℕ) → result ≡ Err (R.Damaged dev at) → FailsFirstAt (G.seen rig.old) dev at }
    ensures refusals { IfErr result (λ e. (e ≡ R.Failed) ⊎ (e ≡ R.Memory) ⊎ ((dev : ℕ) × (at : ℕ) × (e ≡ R.Damaged dev at))) }
    ensures cause { result ≡ Err R.Failed → Rises (G.faults rig.old) (G.faults rig.new) }
    ensures quiet { result ≢ Err R.Failed → G.faults rig.new ≡ G.faults rig.old }
{
    settle_devices(rig)?;
    let opened = read_devices(alloc, rig)?;
    Ok(restored_of(alloc, opened)?)
}
