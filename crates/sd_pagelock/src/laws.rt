//! Laws of the rows, each the contract of a call that changes nothing: who holds a page after a row, whether it is on its
//! way, whether it is changed, and that it is well formed.

ghost use Rattle.std.specs.Prelude.{◌≡◌, ℕ, true, false, eqb, cond, ◌||◌};
ghost use Rattle.sd_base.specs.declared.place.Mode.{Mode};
ghost use Rattle.sd_base.specs.declared.place.Place as coded;
ghost use Rattle.sd_pagelock.specs.Places.{PageEntry, seen, InRange, holds, owns, passes, receives, uses, changed, is_lost, Formed};
ghost use Rattle.sd_pagelock.specs.Rows.{locked, may_raise, raised, may_share, given_shared, may_yield, given_excl, taken, may_drop, fallen, dropped, may_write, written, dirtied};
ghost use Rattle.sd_pagelock.specs.Moves.{IsMove};

use sd_base::Place;

/// A page read from disk for one instance.
pub fn after_lock()
    ensures holds { (i k : ℕ) (mode : Mode) → holds (locked i mode) k ≡ eqb i k }
    ensures passes { (i : ℕ) (mode : Mode) → passes (locked i mode) ≡ false }
    ensures changed { (i : ℕ) (mode : Mode) → changed (locked i mode) ≡ false }
    ensures uses { (i k : ℕ) (mode : Mode) → uses (locked i mode) k ≡ eqb i k }
    ensures formed { (i : ℕ) (mode : Mode) → Formed (locked i mode) }
{}

/// A page that its only holder has alone now.
pub fn after_raise()
    ensures holds { (i k : ℕ) (e : PageEntry) → may_raise i e ≡ true → holds (raised i e) k ≡ holds e k }
    ensures passes { (i : ℕ) (e : PageEntry) → may_raise i e ≡ true → passes (raised i e) ≡ false }
    ensures changed { (i : ℕ) (e : PageEntry) → changed (raised i e) ≡ changed e }
    ensures uses { (i k : ℕ) (e : PageEntry) → may_raise i e ≡ true → uses (raised i e) k ≡ uses e k }
    ensures formed { (i : ℕ) (e : PageEntry) → Formed e → Formed (raised i e) }
{}

/// A page that its holders share with another.
pub fn after_share()
    ensures holds { (i k : ℕ) (e : PageEntry) → holds (given_shared i e) k ≡ holds e k }
    ensures passes { (i : ℕ) (e : PageEntry) → may_share i e ≡ true → passes (given_shared i e) ≡ true }
    ensures changed { (i : ℕ) (e : PageEntry) → changed (given_shared i e) ≡ changed e }
    ensures uses { (i k : ℕ) (e : PageEntry) → may_share i e ≡ true
        → uses (given_shared i e) k ≡ cond (eqb i k) true (uses e k) }
    ensures formed { (i : ℕ) (e : PageEntry) → may_share i e ≡ true → Formed (given_shared i e) }
{}

/// A page that its only holder gave to another.
pub fn after_yield()
    ensures holds { (i k : ℕ) (e : PageEntry) → holds (given_excl i e) k ≡ false }
    ensures passes { (i : ℕ) (e : PageEntry) → passes (given_excl i e) ≡ true }
    ensures changed { (i : ℕ) (e : PageEntry) → changed (given_excl i e) ≡ changed e }
    ensures uses { (i k : ℕ) (e : PageEntry) → uses (given_excl i e) k ≡ eqb i k }
    ensures formed { (i : ℕ) (e : PageEntry) → Formed (given_excl i e) }
{}

/// A page that its receiver took.
pub fn after_take()
    ensures holds { (k : ℕ) (e : PageEntry) → Formed e → holds (taken e) k ≡ uses e k }
    ensures passes { (e : PageEntry) → passes (taken e) ≡ false }
    ensures changed { (e : PageEntry) → changed (taken e) ≡ changed e }
    ensures uses { (k : ℕ) (e : PageEntry) → Formed e → uses (taken e) k ≡ uses e k }
    ensures formed { (e : PageEntry) → Formed e → Formed (taken e) }
{}

/// A page of which an instance's copy is gone, and what moved to it.
pub fn after_fall()
    ensures holds { (i k : ℕ) (e : PageEntry) → holds (fallen i e) k ≡ cond (eqb i k) false (holds e k) }
    ensures passes { (i : ℕ) (e : PageEntry) → passes (fallen i e) ≡ cond (receives e i) false (passes e) }
    ensures changed { (i : ℕ) (e : PageEntry) → changed (fallen i e) ≡ changed e }
    ensures uses { (i k : ℕ) (e : PageEntry) → uses (fallen i e) k ≡ cond (eqb i k) false (uses e k) }
    ensures formed { (i : ℕ) (e : PageEntry) → Formed e → Formed (fallen i e) }
{}

/// A page of which an instance dropped its copy for another.
pub fn after_drop()
    ensures holds { (j i k : ℕ) (e : PageEntry) → holds (dropped j i e) k ≡ cond (eqb j k) false (holds e k) }
    ensures passes { (j i : ℕ) (e : PageEntry) → may_drop j e ≡ true → passes (dropped j i e) ≡ false }
    ensures changed { (j i : ℕ) (e : PageEntry) → changed (dropped j i e) ≡ changed e }
    ensures uses { (j i k : ℕ) (e : PageEntry) → uses (dropped j i e) k ≡ cond (eqb j k) false (uses e k) }
    ensures formed { (j i : ℕ) (e : PageEntry) → Formed e → Formed (dropped j i e) }
{}

/// A copy that is dropped for another instance is one move, or two where that one is left alone: it has the page raised.
pub fn a_drop_is_two_moves()
    ensures { (j i : ℕ) (e : PageEntry) → dropped j i e
        ≡ cond {A = PageEntry} (may_raise i (fallen j e)) (raised i (fallen j e)) (fallen j e) }
{}

/// A page whose newest version is on disk now.
pub fn after_write()
    ensures holds { (k : ℕ) (e : PageEntry) → holds (written e) k ≡ holds e k }
    ensures passes { (e : PageEntry) → passes (written e) ≡ passes e }
    ensures changed { (e : PageEntry) → (may_write e || is_lost e) ≡ true → changed (written e) ≡ false }
    ensures uses { (k : ℕ) (e : PageEntry) → uses (written e) k ≡ uses e k }
    ensures formed { (e : PageEntry) → Formed e → Formed (written e) }
{}

/// A page that its holder changed.
pub fn after_change()
    ensures holds { (i k : ℕ) (e : PageEntry) → owns e i ≡ true → holds (dirtied i) k ≡ holds e k }
    ensures passes { (i : ℕ) → passes (dirtied i) ≡ false }
    ensures changed { (i : ℕ) → changed (dirtied i) ≡ true }
    ensures uses { (i k : ℕ) (e : PageEntry) → owns e i ≡ true → uses (dirtied i) k ≡ uses e k }
    ensures formed { (i : ℕ) → Formed (dirtied i) }
{}

/// Each lawful move leaves a well formed place.
pub fn moves_keep_form()
    ensures { (from to : PageEntry) → IsMove from to → Formed from → Formed to }
{}

/// No lawful move loses a page, and a changed page becomes clean by the page write or the rebuild alone.
pub fn only_copy()
    ensures kept { (from : coded.Place) (to : PageEntry) → Formed (seen from) → IsMove (seen from) to → is_lost to ≡ false }
    ensures written { (from to : PageEntry) → IsMove from to → changed from ≡ true → changed to ≡ false
        → ((may_write from || is_lost from) ≡ true) × (to ≡ written from) }
{}

/// One who may change a page is the only one who holds it, and it isn't on its way.
pub fn owner_is_alone()
    ensures holds { (i k : ℕ) (e : PageEntry) → owns e i ≡ true → holds e k ≡ eqb i k }
    ensures passes { (i : ℕ) (e : PageEntry) → owns e i ≡ true → passes e ≡ false }
    ensures uses { (i k : ℕ) (e : PageEntry) → owns e i ≡ true → uses e k ≡ eqb i k }
{}

/// Those who hold a page or receive it are instances of the complex.
pub fn users_are_instances(place: &Place)
    ensures { InRange (seen place.now) }
{
    match *place {
        Place::Excl { holder, .. } => {
            let _number = holder.get();
        }
        Place::Moving { to, .. } => {
            let _number = to.get();
        }
        Place::Free => {}
        Place::Shared { .. } => {}
        Place::Lost => {}
    }
}

/// A page doesn't move to one who holds a copy of it.
pub fn receiver_has_no_copy()
    ensures { (i : ℕ) (e : PageEntry) → Formed e → holds e i ≡ true → receives e i ≡ false }
{}
