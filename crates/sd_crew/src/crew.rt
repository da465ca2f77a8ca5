//! A crew: a value is put behind a turnstile, each of its workers has one part of the pass, and the value comes out again.

ghost use Rattle.std.specs.Prelude.{◌≡◌, ◌+◌, ◌≤◌, [], All, length, vec_capacity, IfOk, IfErr};
ghost use Rattle.sd_turnstile.specs.Turns.{IsLed};
ghost use Rattle.sd_crew.specs.Worked.{EachWorked, NumberedFrom};

use crate::worker::{Worker, work};
use sd_base::{Gate, InstNo};
use sd_turnstile::{Pass, Shift, Turnstile};
use std::alloc::Global;
use std::sync::Wait;
use std::thread::Threads;

/// Each instance from 1 to `insts`, which is 1 to 8, takes turns of the value, as [`work`] says, and the value comes out again:
/// turns led to it from what went in, one after another, and it stands as it did. It needn't be at its end: a worker may have
/// left.
///
/// `Err` hands the value back as it was, where there is no memory for the workers; nobody took a turn then. May wait.
pub fn take_turns<V: Shift + Send, T: Gate + Sync, R: Threads + Wait + Sync>(
    rt: &R,
    alloc: Global,
    value: V,
    insts: u8,
    gate: &T,
) -> Result<V, V>
    requires stands { V.stands value }
    requires some { 1 ≤ insts }
    requires most { insts ≤ 8 }
    ensures led { IfOk result (λ v. IsLed V.turns value v × V.stands v) }
    ensures worked { IfOk result (λ v. EachWorked V.history V.stands V.turns insts) }
    ensures back { IfErr result (λ v. v ≡ value) }
{
    let Ok(mut workers) = Vec::with_capacity(alloc, insts as usize) else {
        return Err(value);
    };
    let (turnstile, mut pass) = match Turnstile::new(alloc, value, insts as u32 + 1) {
        Ok(made) => made,
        Err(value) => {
            workers.destroy_empty();
            return Err(value);
        }
    };
    hand_out(&turnstile, &mut pass, &mut workers, insts);
    work(rt, &turnstile, workers.as_mut_slice(), gate);
    take_in(&turnstile, &mut pass, workers);
    Ok(turnstile.close(pass))
}

// A pass for each instance.
fn hand_out<V: Shift>(
    turnstile: &Turnstile<V>,
    pass: &mut Pass<V>,
    workers: &mut Vec<Worker<V>, Global>,
    insts: u8,
)
    requires of { pass.old.seat.table_id ≡ turnstile.now.table.shared.table_id }
    requires parts { pass.old.seat.me.0.parts ≡ insts + 1 }
    requires most { insts ≤ 8 }
    requires empty { workers.old.items ≡ [] }
    requires room { insts ≤ vec_capacity workers.old }
    ensures of { pass.new.seat.table_id ≡ turnstile.now.table.shared.table_id }
    ensures parts { pass.new.seat.me.0.parts ≡ 1 }
    ensures count { length workers.new.items ≡ insts }
    ensures numbered { NumberedFrom (λ w. w.inst) 0 workers.new.items }
    ensures ready { All (λ w. (w.pass.seat.table_id ≡ turnstile.now.table.shared.table_id) × (w.pass.seat.me.0.parts ≡ 1))
        workers.new.items }
{
    for number in 0..insts {
        let Some(inst) = InstNo::new(number + 1) else {
            unreachable!()
        };
        let own = turnstile.split(pass);
        workers.push_reserved(Worker { inst, pass: own });
    }
}

// The passes become one again.
fn take_in<V: Shift>(
    turnstile: &Turnstile<V>,
    pass: &mut Pass<V>,
    mut workers: Vec<Worker<V>, Global>,
)
    requires of { pass.old.seat.table_id ≡ turnstile.now.table.shared.table_id }
    requires ready { All (λ w. (w.pass.seat.table_id ≡ turnstile.now.table.shared.table_id)
        × (w.pass.seat.me.0.parts ≡ 1)) workers.items }
    ensures of { pass.new.seat.table_id ≡ turnstile.now.table.shared.table_id }
    ensures parts { pass.new.seat.me.0.parts ≡ pass.old.seat.me.0.parts + length workers.items }
{
    while let Some(worker) = workers.pop() {
        let Worker { inst: _, pass: own } = worker;
        turnstile.join(pass, own);
    }
    workers.destroy_empty();
}
