//! Whether a move of a page is lawful: whether one row of the table leads from the one place to the other.

ghost use Rattle.std.specs.Prelude.{◌≡◌, ◌↔◌, ◌<◌, ℕ, true, IsTrue};
ghost use Rattle.sd_base.specs.declared.place.Mode.{Mode};
ghost use Rattle.sd_pagelock.specs.Places as places;
ghost use Rattle.sd_pagelock.specs.Places.{seen};
ghost use Rattle.sd_pagelock.specs.Rows as rows;
ghost use Rattle.sd_pagelock.specs.Moves as lawful;

use crate::laws;
use crate::rows::{
    dirtied, fallen, given_excl, given_shared, is_free, is_lost, locked, may_evict, may_raise,
    may_share, may_write, may_yield, owns, passes, raised, taken, written,
};
use sd_base::{InstNo, InstSet, Mode, Place};

/// Whether one row of the table leads from the one place to the other.
pub fn is_lawful(from: &Place, to: &Place) -> bool
    ensures { IsTrue result ↔ lawful.IsMove (seen from.now) (seen to.now) }
{
    if comes(from, to) {
        return true;
    }
    if turns(from, to) {
        return true;
    }
    goes(from, to)
}

// Whether an instance comes to have the page, or to have it so: the one whom the new place names first.
fn comes(from: &Place, to: &Place) -> bool
    ensures { IsTrue result ↔ ((i : ℕ) × lawful.Gains i (seen from.now) (seen to.now)) }
{
    match newcomer(to) {
        None => false,
        Some(i) => gains(i, from, to),
    }
}

fn newcomer(to: &Place) -> Option<InstNo>
    ensures { result ≡ lawful.newcomer (seen to.now) }
{
    match *to {
        Place::Free => None,
        Place::Shared { set, .. } => set.first(),
        Place::Excl { holder, .. } => Some(holder),
        Place::Moving { to, .. } => Some(to),
        Place::Lost => None,
    }
}

fn gains(i: InstNo, from: &Place, to: &Place) -> bool
    ensures { IsTrue result ↔ lawful.Gains i (seen from.now) (seen to.now) }
{
    if is_lock(i, from, to) {
        return true;
    }
    if is_raise(i, from, to) {
        return true;
    }
    if is_share(i, from, to) {
        return true;
    }
    if is_yield(i, from, to) {
        return true;
    }
    owns(from, i) && is_same(to, &dirtied(i))
}

fn is_lock(i: InstNo, from: &Place, to: &Place) -> bool
    ensures { IsTrue result ↔ ((mode : Mode) × (places.is_free (seen from.now) ≡ true) × (seen to.now ≡ rows.locked i mode)) }
{
    is_free(from) && is_read(i, to)
}

// Whether the page came from disk to `i`.
fn is_read(i: InstNo, to: &Place) -> bool
    ensures { IsTrue result ↔ ((mode : Mode) × (seen to.now ≡ rows.locked i mode)) }
{
    if is_same(to, &locked(i, Mode::Shared)) {
        return true;
    }
    is_same(to, &locked(i, Mode::Excl))
}

fn is_raise(i: InstNo, from: &Place, to: &Place) -> bool
    ensures { IsTrue result ↔ ((rows.may_raise i (seen from.now) ≡ true) × (seen to.now ≡ rows.raised i (seen from.now))) }
{
    may_raise(i, from) && is_same(to, &raised(i, from))
}

fn is_share(i: InstNo, from: &Place, to: &Place) -> bool
    ensures { IsTrue result ↔ ((rows.may_share i (seen from.now) ≡ true) × (seen to.now ≡ rows.given_shared i (seen from.now))) }
{
    may_share(i, from) && is_same(to, &given_shared(i, from))
}

fn is_yield(i: InstNo, from: &Place, to: &Place) -> bool
    ensures { IsTrue result ↔ ((rows.may_yield i (seen from.now) ≡ true) × (seen to.now ≡ rows.given_excl i (seen from.now))) }
{
    may_yield(i, from) && is_same(to, &given_excl(i, from))
}

// Whether the page is taken, written or rebuilt.
fn turns(from: &Place, to: &Place) -> bool
    ensures { IsTrue result ↔ lawful.Turns (seen from.now) (seen to.now) }
{
    if passes(from) {
        return is_same(to, &taken(from));
    }
    if may_write(from) {
        return is_same(to, &written(from));
    }
    is_lost(from) && is_same(to, &written(from))
}

// Whether an instance's copy goes, which isn't the only one of a change.
fn goes(from: &Place, to: &Place) -> bool
    ensures { IsTrue result ↔ ((i : ℕ) × lawful.Loses i (seen from.now) (seen to.now)) }
{
    laws::users_are_instances(from);
    for n in 1..9 {
        if let Some(i) = InstNo::new(n) {
            if loses(i, from, to) {
                return true;
            }
        }
    }
    false
}

fn loses(i: InstNo, from: &Place, to: &Place) -> bool
    ensures { IsTrue result ↔ lawful.Loses i (seen from.now) (seen to.now) }
{
    may_evict(i, from) && is_same(to, &fallen(i, from))
}

fn is_same(a: &Place, b: &Place) -> bool
    ensures { IsTrue result ↔ (seen a.now ≡ seen b.now) }
{
    sets_are_bytes(a);
    sets_are_bytes(b);
    *a == *b
}

// The sets of a place are bytes.
fn sets_are_bytes(place: &Place)
    ensures { places.InBytes place.now }
{
    match *place {
        Place::Shared { set, .. } => set_is_byte(set),
        Place::Moving { rest, .. } => set_is_byte(rest),
        Place::Free => {}
        Place::Excl { .. } => {}
        Place::Lost => {}
    }
}

fn set_is_byte(set: InstSet)
    ensures { set.bits < 256 }
{}
