//! The rows of the directory's table, and the test of what each may find. A place is never changed but by one of them.

ghost use Rattle.std.specs.Prelude.{◌≡◌, ◌||◌, ℕ, IsTrue, Option, cond};
ghost use Rattle.sd_base.specs.Sets.{has, members};
ghost use Rattle.sd_pagelock.specs.Places as places;
ghost use Rattle.sd_pagelock.specs.Places.{seen, uses};
ghost use Rattle.sd_pagelock.specs.Rows as rows;

use sd_base::{InstNo, InstSet, Mode, Place};

/// Whether no pool has the page, and the disk has its newest version.
pub fn is_free(place: &Place) -> bool
    ensures { result ≡ places.is_free (seen place.now) }
{
    matches!(*place, Place::Free)
}

/// Whether only logs have the page's newest version.
pub fn is_lost(place: &Place) -> bool
    ensures { result ≡ places.is_lost (seen place.now) }
{
    matches!(*place, Place::Lost)
}

/// Whether the page is shared or with one alone, so that a copy can be given.
pub fn rests(place: &Place) -> bool
    ensures { result ≡ places.rests (seen place.now) }
{
    matches!(*place, Place::Shared { .. } | Place::Excl { .. })
}

/// Whether the page is on its way.
pub fn passes(place: &Place) -> bool
    ensures { result ≡ places.passes (seen place.now) }
{
    matches!(*place, Place::Moving { .. })
}

/// Whether the newest version isn't on disk.
pub fn changed(place: &Place) -> bool
    ensures { result ≡ places.changed (seen place.now) }
{
    match *place {
        Place::Free => false,
        Place::Shared { writer, .. } => writer.is_some(),
        Place::Excl { dirty, .. } => dirty,
        Place::Moving { dirty, .. } => dirty,
        Place::Lost => true,
    }
}

/// Whether the pool of `i` has the page.
pub fn holds(place: &Place, i: InstNo) -> bool
    ensures { result ≡ places.holds (seen place.now) i }
{
    match *place {
        Place::Shared { set, .. } => set.has(i),
        Place::Excl { holder, .. } => holder == i,
        Place::Moving { rest, .. } => rest.has(i),
        _ => false,
    }
}

/// Whether `i` has the page alone, and may change it.
pub fn owns(place: &Place, i: InstNo) -> bool
    ensures { result ≡ places.owns (seen place.now) i }
{
    match *place {
        Place::Excl { holder, .. } => holder == i,
        _ => false,
    }
}

/// Whether `i` holds the page in this mode, or in a stronger one.
pub fn holds_as(mode: Mode, place: &Place, i: InstNo) -> bool
    ensures { result ≡ places.holds_as mode (seen place.now) i }
{
    match mode {
        Mode::Shared => holds(place, i),
        Mode::Excl => owns(place, i),
    }
}

/// Whether `i` holds the page, or it moves to `i`.
pub fn uses(place: &Place, i: InstNo) -> bool
    ensures { result ≡ places.uses (seen place.now) i }
{
    match *place {
        Place::Shared { set, .. } => set.has(i),
        Place::Excl { holder, .. } => holder == i,
        Place::Moving { to, rest, .. } => to == i || rest.has(i),
        _ => false,
    }
}

/// Whether the page moves to `i`.
pub fn receives(place: &Place, i: InstNo) -> bool
    ensures { result ≡ places.receives (seen place.now) i }
{
    match *place {
        Place::Moving { to, .. } => to == i,
        _ => false,
    }
}

/// Those who use the page: its holders, and the receiver of one that is on its way.
pub fn users(place: &Place) -> InstSet
    ensures { (k : ℕ) → has k (members result.bits) ≡ uses (seen place.now) k }
{
    match *place {
        Place::Free | Place::Lost => InstSet::EMPTY,
        Place::Shared { set, .. } => set,
        Place::Excl { holder, .. } => InstSet::only(holder),
        Place::Moving { to, rest, .. } => rest.with(to),
    }
}

/// The place of a page that `i` reads from disk, where it was in no pool.
pub fn locked(i: InstNo, mode: Mode) -> Place
    ensures { seen result ≡ rows.locked i mode }
{
    match mode {
        Mode::Shared => Place::Shared {
            set: InstSet::only(i),
            writer: None,
        },
        Mode::Excl => Place::Excl {
            holder: i,
            dirty: false,
        },
    }
}

/// Whether `i` is the only one of a shared page.
pub fn may_raise(i: InstNo, place: &Place) -> bool
    ensures { result ≡ rows.may_raise i (seen place.now) }
{
    match *place {
        Place::Shared { set, .. } => is_only(i, set),
        _ => false,
    }
}

/// The place of a shared page whose only holder has it alone now: changed where it had a writer.
pub fn raised(i: InstNo, place: &Place) -> Place
    requires { IsTrue (rows.may_raise i (seen place.now)) }
    ensures { seen result ≡ rows.raised i (seen place.now) }
{
    match *place {
        Place::Shared { writer, .. } => Place::Excl {
            holder: i,
            dirty: writer.is_some(),
        },
        _ => *place,
    }
}

/// Whether the page rests at others than `i`.
pub fn may_share(i: InstNo, place: &Place) -> bool
    ensures { result ≡ rows.may_share i (seen place.now) }
{
    match *place {
        Place::Shared { set, .. } => !set.has(i),
        Place::Excl { holder, .. } => holder != i,
        _ => false,
    }
}

/// The place of a page that its holders share with `i`, to whom it moves: they keep their copies.
pub fn given_shared(i: InstNo, place: &Place) -> Place
    requires { IsTrue (rows.may_share i (seen place.now)) }
    ensures { seen result ≡ rows.given_shared i (seen place.now) }
{
    match *place {
        Place::Shared { set, writer } => Place::Moving {
            to: i,
            mode: Mode::Shared,
            rest: set,
            dirty: writer.is_some(),
        },
        Place::Excl { holder, dirty } => Place::Moving {
            to: i,
            mode: Mode::Shared,
            rest: InstSet::only(holder),
            dirty,
        },
        _ => *place,
    }
}

/// Whether the page rests at one instance alone, another than `i`.
pub fn may_yield(i: InstNo, place: &Place) -> bool
    ensures { result ≡ rows.may_yield i (seen place.now) }
{
    match *place {
        Place::Shared { set, .. } => is_only_other(i, set),
        Place::Excl { holder, .. } => holder != i,
        _ => false,
    }
}

/// The place of a page that its only holder gives to `i`, and keeps no copy of.
pub fn given_excl(i: InstNo, place: &Place) -> Place
    requires { IsTrue (rows.may_yield i (seen place.now)) }
    ensures { seen result ≡ rows.given_excl i (seen place.now) }
{
    Place::Moving {
        to: i,
        mode: Mode::Excl,
        rest: InstSet::EMPTY,
        dirty: changed(place),
    }
}

/// The place of a page that its receiver took. The lowest of the others has the duty of the page write, or the receiver
/// where there is none.
pub fn taken(place: &Place) -> Place
    requires { IsTrue (places.passes (seen place.now)) }
    ensures { seen result ≡ rows.taken (seen place.now) }
{
    match *place {
        Place::Moving {
            to,
            mode,
            rest,
            dirty,
        } => match mode {
            Mode::Excl => Place::Excl { holder: to, dirty },
            Mode::Shared => Place::Shared {
                set: rest.with(to),
                writer: writer_of(dirty, lowest(to, rest)),
            },
        },
        _ => *place,
    }
}

/// Whether `i` shares the page with others, who keep it when `i` drops its copy.
pub fn may_drop(i: InstNo, place: &Place) -> bool
    ensures { result ≡ rows.may_drop i (seen place.now) }
{
    match *place {
        Place::Shared { set, .. } => set.has(i) && !is_only(i, set),
        _ => false,
    }
}

/// Whether `i` may evict the page: it holds it, and isn't the only one to know its changes.
pub fn may_evict(i: InstNo, place: &Place) -> bool
    ensures { result ≡ rows.may_evict i (seen place.now) }
{
    match *place {
        Place::Shared { set, writer } => set.has(i) && !(is_only(i, set) && writer.is_some()),
        Place::Excl { holder, dirty } => holder == i && !dirty,
        Place::Moving { rest, .. } => rest.has(i),
        _ => false,
    }
}

/// The place that is left when `i`'s copy goes, and what moves to `i` with it: where `i` fell, evicted the page, or
/// dropped its copy. It is as before where `i` has no part in the page.
pub fn fallen(i: InstNo, place: &Place) -> Place
    ensures { seen result ≡ rows.fallen i (seen place.now) }
{
    match *place {
        Place::Shared { set, writer } => shared_left(i, set.without(i), writer),
        Place::Excl { holder, dirty } => { if holder == i { nowhere(dirty) } else { *place } }
        Place::Moving {
            to,
            mode,
            rest,
            dirty,
        } => {
            let rest = rest.without(i);
            if to == i {
                left_with(dirty, rest)
            } else {
                Place::Moving {
                    to,
                    mode,
                    rest,
                    dirty,
                }
            }
        }
        _ => *place,
    }
}

/// The place of a page that one alone shares, who has it alone now. Every other place stays.
pub fn left_alone(place: &Place) -> Place
    ensures { seen result ≡ rows.left_alone (seen place.now) }
{
    match *place {
        Place::Shared { set, writer } => match set.first() {
            None => *place,
            Some(x) => {
                if is_only(x, set) {
                    Place::Excl {
                        holder: x,
                        dirty: writer.is_some(),
                    }
                } else {
                    *place
                }
            }
        },
        _ => *place,
    }
}

/// The place of a page of which `j` drops its copy for `i`: where nobody else is left, `i` has the page alone.
pub fn dropped(j: InstNo, i: InstNo, place: &Place) -> Place
    requires { IsTrue (rows.may_drop j (seen place.now)) }
    ensures { seen result ≡ rows.dropped j i (seen place.now) }
{
    let left = fallen(j, place);
    let alone = left_alone(&left);
    if holds(&alone, i) { alone } else { left }
}

/// Whether the page rests, changed, so that its holder or writer may write it to disk.
pub fn may_write(place: &Place) -> bool
    ensures { result ≡ rows.may_write (seen place.now) }
{
    match *place {
        Place::Shared { writer, .. } => writer.is_some(),
        Place::Excl { dirty, .. } => dirty,
        _ => false,
    }
}

/// The place of a page whose newest version is on disk now: after the page write, or the rebuild of a lost page.
pub fn written(place: &Place) -> Place
    requires { IsTrue (rows.may_write (seen place.now) || places.is_lost (seen place.now)) }
    ensures { seen result ≡ rows.written (seen place.now) }
{
    match *place {
        Place::Shared { set, .. } => Place::Shared { set, writer: None },
        Place::Excl { holder, .. } => Place::Excl {
            holder,
            dirty: false,
        },
        Place::Lost => Place::Free,
        _ => *place,
    }
}

/// The place of a page that `i`, who has it alone, changed.
pub fn dirtied(i: InstNo) -> Place
    ensures { seen result ≡ rows.dirtied i }
{
    Place::Excl {
        holder: i,
        dirty: true,
    }
}

// Whether the set has `i` and nobody else.
fn is_only(i: InstNo, set: InstSet) -> bool
    ensures { result ≡ rows.is_only i (members set.bits) }
{
    set.has(i) && set.without(i).is_empty()
}

// Whether the set has one member alone, another than `i`.
fn is_only_other(i: InstNo, set: InstSet) -> bool
    ensures { result ≡ rows.is_only_other i (members set.bits) }
{
    match set.first() {
        None => false,
        Some(x) => x != i && is_only(x, set),
    }
}

// The lowest of `rest`, or the receiver where it is empty.
fn lowest(to: InstNo, rest: InstSet) -> InstNo
    ensures { result ≡ rows.lowest to (members rest.bits) }
{
    match rest.first() {
        None => to,
        Some(low) => low,
    }
}

// The duty of the page write is `low`'s, where the page is changed.
fn writer_of(dirty: bool, low: InstNo) -> Option<InstNo>
    ensures { result ≡ cond {A = Option ℕ} dirty (Some low) None }
{
    if dirty { Some(low) } else { None }
}

// The place of a page that no pool has.
fn nowhere(dirty: bool) -> Place
    ensures { seen result ≡ rows.nowhere dirty }
{
    if dirty { Place::Lost } else { Place::Free }
}

// The place of a page that moved to one who is gone: the others share it, the lowest as writer where it is changed.
fn left_with(dirty: bool, rest: InstSet) -> Place
    ensures { seen result ≡ rows.left_with dirty (members rest.bits) }
{
    match rest.first() {
        None => nowhere(dirty),
        Some(low) => Place::Shared {
            set: rest,
            writer: writer_of(dirty, low),
        },
    }
}

// The place of a page that `left` share after `i`. The lowest of them is the writer where `i` was.
fn shared_left(i: InstNo, left: InstSet, writer: Option<InstNo>) -> Place
    ensures { seen result ≡ rows.shared_left i (members left.bits) writer }
{
    match left.first() {
        None => nowhere(writer.is_some()),
        Some(low) => Place::Shared {
            set: left,
            writer: kept_writer(i, writer, low),
        },
    }
}

// The writer stays, or is the lowest one left where it was `i`.
fn kept_writer(i: InstNo, writer: Option<InstNo>, low: InstNo) -> Option<InstNo>
    ensures { result ≡ rows.kept_writer i writer low }
{
    match writer {
        None => None,
        Some(w) => Some(if w == i { low } else { w }),
    }
}
