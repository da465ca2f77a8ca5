//! Workers at a turnstile: that they end, and that each event is there once, whoever made it. They share atomics alone.

ghost use Rattle.std.specs.Prelude.{◌≤◌};

use crate::take_turns;
use sd_base::{Gate, InstNo, OpenGate};
use sd_turnstile::{Shift, Turn, Turnstile, Why};
use std::alloc::Global;
use std::process::Abort;
use std::sync::Wait;
use std::sync::atomic::{AtomicU64, Ordering};
use std::test::Fail;
use std::thread::Threads;

/// Whose turns are ready.
#[derive(Clone, Copy)]
enum Ready {
    Each,
    /// Those of the eight in their order, again and again.
    Next,
    Only(u8),
    Nobody,
}

/// An event: how many were made before it, and by whom it was made.
#[derive(Clone, Copy)]
struct Made {
    number: u64,
    inst: u8,
}

/// Counts its events up to the end.
#[derive(Drop)]
struct Counter {
    made: u64,
    end: u64,
    ready: Ready,
    entries: Vec<Made>,
}

impl Counter {
    fn new(alloc: Global, end: u64, ready: Ready) -> Counter {
        Counter {
            made: 0,
            end,
            ready,
            entries: Vec::new(alloc),
        }
    }

    fn is_ready(&self, inst: InstNo) -> bool {
        match self.ready {
            Ready::Each => true,
            Ready::Next => self.made % 8 + 1 == inst.get() as u64,
            Ready::Only(one) => inst.get() == one,
            Ready::Nobody => false,
        }
    }

    // Whether the events are those from 0 up to the end, each once, in their order.
    fn is_whole(&self) -> bool {
        self.entries.len() as u64 == self.end
            && self
                .entries
                .iter()
                .enumerate()
                .all(|(place, entry)| entry.number == place as u64)
    }

    fn made_by(&self, inst: u8) -> usize {
        self.entries
            .iter()
            .filter(|entry| entry.inst == inst)
            .count()
    }
}

impl Shift for Counter {
    ghost use Rattle.sd_turnstile.specs.Turns.{IsNext};

    type Entry = Made;

    ghost history = { λ c. c.entries.items };

    ghost stands = { λ c. Unit {0} };

    ghost turns = { λ before inst answer behind. IsNext before.entries.items behind.entries.items answer };

    fn turn<R: Threads + Wait + Sync>(&mut self, _rt: &R, inst: InstNo) -> Turn {
        if self.made >= self.end {
            return Turn::Ended;
        }
        if !self.is_ready(inst) {
            return Turn::NotReady { why: Why::Idle };
        }
        let entry = Made {
            number: self.made,
            inst: inst.get(),
        };
        match self.entries.push(entry) {
            Ok(()) => {
                self.made += 1;
                Turn::Did
            }
            Err(_) => Turn::Short,
        }
    }

    fn length(&self) -> u64 {
        self.entries.len() as u64
    }
}

/// How often workers passed it, and came back.
#[derive(Drop)]
struct Passes {
    begun: AtomicU64,
    ended: AtomicU64,
}

impl Passes {
    fn new() -> Passes {
        Passes {
            begun: AtomicU64::new(0),
            ended: AtomicU64::new(0),
        }
    }
}

impl Gate for Passes {
    fn pass(&self, _inst: InstNo, _turn: u64) {
        self.begun.fetch_add(1, Ordering::SeqCst);
    }

    fn passed(&self, _inst: InstNo, _turn: u64) {
        self.ended.fetch_add(1, Ordering::SeqCst);
    }
}

// What so many workers make of a counter.
fn counted<T: Gate + Sync, R: Threads + Wait + Sync>(
    rt: &R,
    alloc: Global,
    counter: Counter,
    insts: u8,
    gate: &T,
) -> Option<Counter>
    requires some { 1 ≤ insts }
    requires most { insts ≤ 8 }
{
    take_turns(rt, alloc, counter, insts, gate).ok()
}

#[test]
fn eight_workers_make_each_event_once(rt: HostRuntime) -> Result<(), Fail> {
    let gate = Passes::new();
    let counter = Counter::new(rt.alloc(), 20_000, Ready::Each);
    let counter = counted(&rt, rt.alloc(), counter, 8, &gate).ok_or("no memory")?;
    assert!(rt; counter.is_whole());
    let turns = gate.begun.load(Ordering::SeqCst);
    assert_eq!(rt; turns, gate.ended.load(Ordering::SeqCst));
    // Behind the last event each worker has one turn more, which ends it.
    assert_eq!(rt; turns, 20_008);
    Ok(())
}

#[test]
fn each_waits_for_the_one_before(rt: HostRuntime) -> Result<(), Fail> {
    let counter = Counter::new(rt.alloc(), 2_000, Ready::Next);
    let counter = counted(&rt, rt.alloc(), counter, 8, &OpenGate).ok_or("no memory")?;
    assert!(rt; counter.is_whole());
    assert!(rt; (1..9).all(|inst| counter.made_by(inst) == 250));
    Ok(())
}

#[test]
fn one_has_all_the_work(rt: HostRuntime) -> Result<(), Fail> {
    let counter = Counter::new(rt.alloc(), 5_000, Ready::Only(3));
    let counter = counted(&rt, rt.alloc(), counter, 8, &OpenGate).ok_or("no memory")?;
    assert!(rt; counter.is_whole());
    assert_eq!(rt; counter.made_by(3), 5_000);
    Ok(())
}

#[test]
fn workers_leave_where_nothing_happens(rt: HostRuntime) -> Result<(), Fail> {
    let gate = Passes::new();
    let counter = Counter::new(rt.alloc(), 1, Ready::Nobody);
    let counter = counted(&rt, rt.alloc(), counter, 2, &gate).ok_or("no memory")?;
    assert_eq!(rt; counter.entries.len(), 0);
    assert!(rt; gate.begun.load(Ordering::SeqCst) > 2 * 4_096);
    Ok(())
}

#[test]
fn passes_of_one_thread_make_turns(rt: HostRuntime) -> Result<(), Fail> {
    let one = InstNo::new(1).ok_or("instance 1")?;
    let two = InstNo::new(2).ok_or("instance 2")?;
    let counter = Counter::new(rt.alloc(), 2, Ready::Next);
    let Ok((turnstile, mut pass)) = Turnstile::new(rt.alloc(), counter, 2) else {
        return Err(Fail::from("no memory"));
    };
    let mut other = turnstile.split(&mut pass);
    let answers = [
        turnstile.turn(&rt, &mut pass, one),
        turnstile.turn(&rt, &mut pass, one),
        turnstile.turn(&rt, &mut other, two),
        turnstile.turn(&rt, &mut other, two),
    ];
    turnstile.join(&mut pass, other);
    let counter = turnstile.close(pass);
    assert!(rt;
        matches!(
            answers,
            [Turn::Did, Turn::NotReady { .. }, Turn::Did, Turn::Ended]
        )
    );
    assert!(rt; counter.is_whole());
    assert_eq!(rt; counter.made_by(2), 1);
    Ok(())
}
