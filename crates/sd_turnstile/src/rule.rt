//! The rule of the turnstile, and its kinds of step: each says what it makes of what one pass knows. They run nothing.

use crate::shift::Shift;
use atomic_table::{Join, Play, Split, TableRule};
use std::alloc::Global;
use std::collections::LinkedList;
use std::snapshot::Snapshot;

/// What a pass knows. No value of it is made: clauses alone speak of it.
pub struct View<V, E> {
    /// How the history began when the pass last saw it.
    pub seen: LinkedList<E, Global>,
    /// The places of the entries that turns with the pass added.
    pub mine: LinkedList<u64, Global>,
    pub parts: u64,
    /// In a turn, its ticket, which is counted on where the word begins anew.
    pub ticket: Option<u64>,
    /// Whether it knows that its ticket is served.
    pub serving: bool,
    /// The value that is out with it.
    pub out: Option<V>,
}

/// How many parts there are, and the first value.
pub type Key<V> = (u64, Snapshot<V>);

/// The rule of the turnstile.
pub struct Rule;

impl<V: Shift> TableRule<Option<V>, View<V, V::Entry>, Key<V>> for Rule {
    ghost use Rattle.std.specs.Prelude.{[], None, false};
    ghost use Rattle.sd_turnstile.specs.Rule.{Stands, view};

    ghost holds = { λ key s. Stands V.history V.stands V.turns key.0 key.1.value s };

    ghost first = { λ key. view [] [] key.0 None false None };
}

/// One part goes to a view of its own.
pub struct OnePart;

impl<V, E> Split<View<V, E>> for OnePart {
    ghost use Rattle.sd_turnstile.specs.Rule.{left_of, right_of};

    ghost left = { left_of };

    ghost right = { right_of };
}

impl<V, E> Join<View<V, E>> for OnePart {
    ghost use Rattle.sd_turnstile.specs.Rule.{both_of, spent_view};

    ghost both = { both_of };

    ghost spent = { spent_view };
}

/// The step that draws a ticket.
pub struct Draw;

impl<V: Shift> Play<Option<V>, View<V, V::Entry>> for Draw {
    ghost use Rattle.sd_turnstile.specs.Rule.{Draws};

    ghost then = { λ s v found w. Draws v found w };
}

/// The step that looks whether the ticket is served, and takes the value where it is.
pub struct Look;

impl<V: Shift> Play<Option<V>, View<V, V::Entry>> for Look {
    ghost use Rattle.sd_turnstile.specs.Rule.{Serves};

    ghost then = { λ s v found w. Serves V.history V.stands v found w };
}

/// The step that gives the value back and raises the count.
pub struct Raise;

impl<V: Shift> Play<Option<V>, View<V, V::Entry>> for Raise {
    ghost use Rattle.sd_turnstile.specs.Rule.{Raises};

    ghost then = { λ s v found w. Raises V.history v w };
}

/// The step that serves the next ticket.
pub struct Leave;

impl<V: Shift> Play<Option<V>, View<V, V::Entry>> for Leave {
    ghost use Rattle.sd_turnstile.specs.Rule.{Leaves};

    ghost then = { λ s v found w. Leaves v w };
}
