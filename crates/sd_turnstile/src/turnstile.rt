//! The turnstile: who has drawn the next ticket has the value, makes a turn of it, and serves the ticket behind.

ghost use Rattle.std.specs.Prelude.{◌≡◌, ◌+◌, ◌≤◌, length, IfOk, IfErr, None, Some, false, [], ◌%◌, ℕ, MatchBool};
ghost use mathlib.Core.List.{IsPrefix};
ghost use Rattle.sd_turnstile.specs.Turns.{IsLed};
ghost use Rattle.sd_turnstile.specs.Rule.{Calm, Draws, Makes, Takes, IsOut, times, below, left_of, right_of, both_of, view};

use crate::rule::{Draw, Key, Leave, Look, OnePart, Raise, Rule, View};
use crate::shift::{Shift, Turn};
use atomic_table::{Refused, Seat, Table};
use sd_base::InstNo;
use std::alloc::{AllocFailed, Global};
use std::snapshot::Snapshot;
use std::sync::Wait;
use std::thread;
use std::thread::Threads;
use std::time::Duration;

// How often a ticket is looked at, and then looked at between yields, before a thread sleeps between looks.
const SPINS: u32 = 50;

const YIELDS: u32 = 20_000;

// How many turns that weren't ready are followed by a yield alone.
const YIELDED: u32 = 8;

/// A value, of which each turn is made by who has drawn the next ticket.
pub struct Turnstile<V: Shift> {
    table: Table<Option<V>, View<V, V::Entry>, Key<V>, Rule, Global>,
    pub ghost sized: { (table.shared.table_id.words ≡ 3) × (table.shared.table_id.slots ≡ 1) },
}

/// The right to turns, what its holder has seen, and which entries are its own.
pub struct Pass<V: Shift> {
    seat: Seat<Option<V>, View<V, V::Entry>>,
    pub ghost calm: { (seat.me.1 ≡ []) × Calm seat.me.0 },
}

impl<V: Shift> Turnstile<V> {
    /// A turnstile with the value, and the one pass through it, which has so many parts, one at least, has seen nothing, and has
    /// no entry. `Err` hands the value back as it was, where there is no memory.
    pub fn new(alloc: Global, value: V, parts: u32) -> Result<(Turnstile<V>, Pass<V>), V>
        requires parts { 1 ≤ parts }
        requires stands { V.stands value }
        ensures pass { IfOk result (λ r. (r.1.seat.me.0 ≡ view [] [] parts None false None)
            × (r.1.seat.table_id ≡ r.0.table.shared.table_id)) }
        ensures key { IfOk result (λ r. (r.0.table.shared.key.0 ≡ parts) × (r.0.table.shared.key.1.value ≡ value)) }
        ensures value { IfErr result (λ v. v ≡ value) }
    {
        let length = value.length();
        let key = (parts as u64, Snapshot::of(&value));
        let mut slots = Vec::new(alloc);
        if let Err(failed) = slots.push(Some(value)) {
            let AllocFailed { value } = failed;
            slots.destroy_empty();
            let Some(value) = value else { unreachable!() };
            return Err(value);
        }
        match Table::new(alloc, &[0, 0, length], slots, &key) {
            Ok((table, seat)) => Ok((Turnstile { table }, Pass { seat })),
            Err(Refused { mut slots }) => {
                let Some(Some(value)) = slots.pop() else {
                    unreachable!()
                };
                slots.destroy_empty();
                Err(value)
            }
        }
    }

    /// One part goes to a pass of its own, which has seen what the first one has, and has no entry. The pass, of this turnstile,
    /// needs two parts.
    pub fn split(&self, pass: &mut Pass<V>) -> Pass<V>
        requires of { pass.old.seat.table_id ≡ self.now.table.shared.table_id }
        requires parts { 2 ≤ pass.old.seat.me.0.parts }
        ensures of { (pass.new.seat.table_id ≡ pass.old.seat.table_id) × (result.seat.table_id ≡ pass.old.seat.table_id) }
        ensures left { pass.new.seat.me.0 ≡ left_of pass.old.seat.me.0 }
        ensures right { result.seat.me.0 ≡ right_of pass.old.seat.me.0 }
    {
        let seat = self.table.shared.split_seat::<OnePart>(&mut pass.seat);
        Pass { seat }
    }

    /// Two passes of this turnstile become one, with the parts and the entries of both, and the longer of what they have seen.
    pub fn join(&self, pass: &mut Pass<V>, other: Pass<V>)
        requires of { (pass.old.seat.table_id ≡ self.now.table.shared.table_id)
            × (other.seat.table_id ≡ self.now.table.shared.table_id) }
        ensures of { pass.new.seat.table_id ≡ pass.old.seat.table_id }
        ensures both { pass.new.seat.me.0 ≡ both_of pass.old.seat.me.0 other.seat.me.0 }
    {
        let Pass { seat } = other;
        self.table.shared.join_seat::<OnePart>(&mut pass.seat, seat);
    }

    /// Waits for the next turn and makes it of the value, for this instance; answers what the value did. The pass, of this
    /// turnstile, needs a part, and keeps it. Behind the call it has seen the value's history, and an entry that the turn added
    /// is its own.
    ///
    /// May wait, and no clause says that its turn comes.
    pub fn turn<R: Threads + Wait + Sync>(&self, rt: &R, pass: &mut Pass<V>, inst: InstNo) -> Turn
        requires of { pass.old.seat.table_id ≡ self.now.table.shared.table_id }
        requires part { 1 ≤ pass.old.seat.me.0.parts }
        ensures of { pass.new.seat.table_id ≡ pass.old.seat.table_id }
        ensures parts { pass.new.seat.me.0.parts ≡ pass.old.seat.me.0.parts }
        ensures makes { Makes V.history V.stands V.turns pass.old.seat.me.0 inst result pass.new.seat.me.0 }
    {
        let ticket = self.draw(&mut pass.seat);
        self.wait(rt, &mut pass.seat, ticket);
        self.serve(rt, &mut pass.seat, inst)
    }

    /// The value, for the pass with all the parts that [`Turnstile::new`] was given, so that no other pass is left. Turns led to
    /// it from the value that went in. Its history begins with all that the pass has seen, and each place behind the history of
    /// the value that went in is the pass's own, once.
    pub fn close(self, pass: Pass<V>) -> V
        requires of { pass.seat.table_id ≡ self.table.shared.table_id }
        requires parts { pass.seat.me.0.parts ≡ self.table.shared.key.0 }
        ensures led { IsLed V.turns self.table.shared.key.1.value result }
        ensures stands { V.stands result }
        ensures begins { IsPrefix pass.seat.me.0.seen (V.history result) }
        ensures mine { (p : ℕ) → times p pass.seat.me.0.mine + below p (length (V.history self.table.shared.key.1.value))
            ≡ below p (length (V.history result)) }
    {
        let Turnstile { table } = self;
        let Pass { seat } = pass;
        let mut closed = table.close_with(seat);
        let slot = closed.take(0);
        closed.free();
        let Some(value) = slot else { unreachable!() };
        value
    }

    /// How many entries the history had at some moment. No clause says at which.
    pub fn count(&self) -> u64 {
        self.table.shared.peek(2)
    }

    /// Waits a little before the next turn, where so many in a row weren't ready: a millisecond at most, and not where the
    /// history grew meanwhile.
    pub fn pause<R: Wait>(&self, rt: &R, tries: u32) {
        if tries < YIELDED {
            thread::yield_now();
            return;
        }
        let doublings = (tries - YIELDED).min(10);
        let count = (self.count() % (1 << 32)) as u32;
        self.table
            .shared
            .park_timeout(rt, 2, count, Duration::from_micros(1 << doublings));
    }

    // Draws a ticket.
    fn draw(&self, seat: &mut Seat<Option<V>, View<V, V::Entry>>) -> u64
        requires of { seat.old.table_id ≡ self.now.table.shared.table_id }
        requires calm { (seat.old.me.1 ≡ []) × Calm seat.old.me.0 }
        requires part { 1 ≤ seat.old.me.0.parts }
        ensures of { (seat.new.table_id ≡ seat.old.table_id) × (seat.new.id ≡ seat.old.id) }
        ensures drawn { Draws seat.old.me result seat.new.me }
    {
        self.table.shared.fetch_add::<Draw>(seat, 0, 1)
    }

    // Waits until the ticket is served.
    fn wait<R: Wait>(&self, rt: &R, seat: &mut Seat<Option<V>, View<V, V::Entry>>, ticket: u64)
        requires of { seat.old.table_id ≡ self.now.table.shared.table_id }
        requires waits { (t : ℕ) × (seat.old.me.0.ticket ≡ Some t) × (ticket ≡ t % 18446744073709551616) }
        requires inside { seat.old.me.0.out ≡ None }
        ensures of { (seat.new.table_id ≡ seat.old.table_id) × (seat.new.id ≡ seat.old.id) }
        ensures told { (t : ℕ) × (seat.old.me.0.ticket ≡ Some t) × Takes V.history V.stands seat.old.me t seat.new.me }
    {
        let mut looks = 0u32;
        for _ in rt.forever() {
            if self.look(seat, ticket) {
                return;
            }
            looks = looks.saturating_add(1);
            self.rest(rt, looks);
        }
        unreachable!()
    }

    // Lets others run after so many looks: the ticket that is served may be that of a thread without a processor.
    fn rest<R: Wait>(&self, rt: &R, looks: u32) {
        if looks <= SPINS {
            return;
        }
        if looks <= SPINS + YIELDS {
            thread::yield_now();
            return;
        }
        let served = (self.table.shared.peek(1) % (1 << 32)) as u32;
        self.table
            .shared
            .park_timeout(rt, 1, served, Duration::from_micros(50));
    }

    // Looks whether the ticket is served, and takes the value where it is.
    fn look(&self, seat: &mut Seat<Option<V>, View<V, V::Entry>>, ticket: u64) -> bool
        requires of { seat.old.table_id ≡ self.now.table.shared.table_id }
        requires waits { (t : ℕ) × (seat.old.me.0.ticket ≡ Some t) × (ticket ≡ t % 18446744073709551616) }
        requires inside { seat.old.me.0.out ≡ None }
        ensures of { (seat.new.table_id ≡ seat.old.table_id) × (seat.new.id ≡ seat.old.id) }
        ensures told { (t : ℕ) × (seat.old.me.0.ticket ≡ Some t)
            × MatchBool result (Takes V.history V.stands seat.old.me t seat.new.me) (seat.new.me ≡ seat.old.me) }
    {
        self.table.shared.load::<Look>(seat, 1) == ticket
    }

    // Makes the turn on the value, which is out, and gives it back.
    fn serve<R: Threads + Wait + Sync>(
        &self,
        rt: &R,
        seat: &mut Seat<Option<V>, View<V, V::Entry>>,
        inst: InstNo,
    ) -> Turn
        requires of { seat.old.table_id ≡ self.now.table.shared.table_id }
        requires out { IsOut V.history V.stands seat.old.me }
        ensures of { (seat.new.table_id ≡ seat.old.table_id) × (seat.new.id ≡ seat.old.id) }
        ensures calm { (seat.new.me.1 ≡ []) × Calm seat.new.me.0 }
        ensures parts { seat.new.me.0.parts ≡ seat.old.me.0.parts }
        ensures makes { Makes V.history V.stands V.turns seat.old.me.0 inst result seat.new.me.0 }
    {
        let taken = self.table.shared.exchange(seat, 0, None);
        let Some(mut value) = taken else {
            unreachable!()
        };
        let answer = value.turn(rt, inst);
        let count = value.length();
        let left = self.table.shared.exchange(seat, 0, Some(value));
        let None = left else { unreachable!() };
        self.table.shared.store::<Raise>(seat, 2, count);
        self.table.shared.fetch_add::<Leave>(seat, 1, 1);
        answer
    }
}
