//! A worker takes the turns of its instance through a turnstile, until none is left to take. It sees no value.

ghost use Rattle.std.specs.Prelude.{◌≡◌, ◌+◌, ◌≤◌, All, length};
ghost use Rattle.sd_crew.specs.Worked.{AtEach, HasWorked};
ghost use Rattle.sd_turnstile.specs.Rule.{Makes};

use sd_base::{Gate, InstNo};
use sd_turnstile::{Pass, Shift, Turn, Turnstile};
use std::sync::Wait;
use std::thread;
use std::thread::Threads;

/// An instance, and the pass for its turns.
pub struct Worker<V: Shift> {
    pub(crate) inst: InstNo,
    pub(crate) pass: Pass<V>,
}

// A worker leaves where so many of its turns in a row weren't ready, and nobody's was meanwhile.
const MOST_WAITS: u32 = 4_096;

/// Each worker takes the turns of its instance, one after another, in a thread of its own where one can be made. It leaves where
/// one answers `Ended` or `Short`, or where thousands of them in a row weren't ready and nothing happened meanwhile: as where no
/// thread can be made, and a later worker would have to be first. Each turn is made between the two calls of the gate.
///
/// Each worker needs one part of a pass of this turnstile, and keeps it. May wait, and no clause says that it returns.
pub fn work<V: Shift + Send, T: Gate + Sync, R: Threads + Wait + Sync>(
    rt: &R,
    turnstile: &Turnstile<V>,
    workers: &mut [Worker<V>],
    gate: &T,
)
    requires some { 1 ≤ length workers.old }
    requires ready { All (λ w. (w.pass.seat.table_id ≡ turnstile.now.table.shared.table_id)
        × (w.pass.seat.me.0.parts ≡ 1)) workers.old }
    ensures ready { All (λ w. (w.pass.seat.table_id ≡ turnstile.now.table.shared.table_id)
        × (w.pass.seat.me.0.parts ≡ 1)) workers.new }
    ensures count { length workers.new ≡ length workers.old }
    ensures worked { AtEach (λ old new. (new.inst ≡ old.inst)
        × HasWorked V.history V.stands V.turns old.pass.seat.me.0 old.inst new.pass.seat.me.0) workers.old workers.new }
{
    let count = workers.len();
    thread::for_each_mut(
        rt,
        workers,
        count,
        &|_, worker| -> ()
            requires { (worker.old.pass.seat.table_id ≡ turnstile.now.table.shared.table_id)
                × (worker.old.pass.seat.me.0.parts ≡ 1) }
            ensures { (worker.new.pass.seat.table_id ≡ turnstile.entry.now.table.shared.table_id)
                × (worker.new.pass.seat.me.0.parts ≡ 1)
                × (worker.new.inst ≡ worker.old.inst)
                × HasWorked V.history V.stands V.turns worker.old.pass.seat.me.0 worker.old.inst worker.new.pass.seat.me.0 }
        { work_alone(rt, turnstile, worker, gate) },
    );
}

// Takes the turns of one instance.
fn work_alone<V: Shift, T: Gate, R: Threads + Wait + Sync>(
    rt: &R,
    turnstile: &Turnstile<V>,
    worker: &mut Worker<V>,
    gate: &T,
)
    requires ready { (worker.old.pass.seat.table_id ≡ turnstile.now.table.shared.table_id)
        × (worker.old.pass.seat.me.0.parts ≡ 1) }
    ensures ready { (worker.new.pass.seat.table_id ≡ turnstile.now.table.shared.table_id)
        × (worker.new.pass.seat.me.0.parts ≡ 1) }
    ensures inst { worker.new.inst ≡ worker.old.inst }
    ensures worked { HasWorked V.history V.stands V.turns worker.old.pass.seat.me.0 worker.old.inst worker.new.pass.seat.me.0 }
{
    let mut turn = 0u64;
    let mut tries = 0u32;
    let mut still = 0u32;
    let mut count = turnstile.count();
    for _ in rt.forever() {
        turn = turn.saturating_add(1);
        match take_turn(rt, turnstile, worker, gate, turn) {
            Turn::Did => {
                tries = 0;
                still = 0;
            }
            Turn::NotReady { .. } => {
                let now = turnstile.count();
                tries = tries.saturating_add(1);
                still = still_for(still, now == count);
                count = now;
                if still > MOST_WAITS {
                    return;
                }
                turnstile.pause(rt, tries);
            }
            Turn::Ended => return,
            Turn::Short => return,
        }
    }
    unreachable!()
}

// One turn, between the calls of the gate.
fn take_turn<V: Shift, T: Gate, R: Threads + Wait + Sync>(
    rt: &R,
    turnstile: &Turnstile<V>,
    worker: &mut Worker<V>,
    gate: &T,
    turn: u64,
) -> Turn
    requires ready { (worker.old.pass.seat.table_id ≡ turnstile.now.table.shared.table_id)
        × (worker.old.pass.seat.me.0.parts ≡ 1) }
    ensures ready { (worker.new.pass.seat.table_id ≡ turnstile.now.table.shared.table_id)
        × (worker.new.pass.seat.me.0.parts ≡ 1) }
    ensures inst { worker.new.inst ≡ worker.old.inst }
    ensures makes { Makes V.history V.stands V.turns worker.old.pass.seat.me.0 worker.old.inst result worker.new.pass.seat.me.0 }
{
    let inst = worker.inst;
    gate.pass(inst, turn);
    let answer = turnstile.turn(rt, &mut worker.pass, inst);
    gate.passed(inst, turn);
    answer
}

// For how many turns in a row nothing has happened, one more of them counted.
fn still_for(turns: u32, is_still: bool) -> u32
    ensures { result ≤ turns + 1 }
{
    if is_still { turns.saturating_add(1) } else { 0 }
}
