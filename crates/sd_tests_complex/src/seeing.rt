//! What is seen of a complex behind a step.

ghost use Rattle.sd_state.specs.Complexes.{parts};
ghost use Rattle.sd_state.specs.Parts.{IsShape};

use sd_base::{Place, Rid};
use sd_one::first;
use sd_state::Complex;

/// How many records the log has, how many transactions are unresolved, whether the page is changed, and the record's value.
pub(crate) type Seen<'a> = (usize, usize, bool, Option<&'a [u8]>);

pub(crate) fn seen<'a, G>(c: &'a Complex<G>, r: &Rid) -> Seen<'a>
    requires { IsShape (parts c.now) }
{
    let i = first();
    let value = match c.pools.first() {
        Some(pool) => pool.look(r.page).and_then(|image| image.value(r.slot)),
        None => None,
    };
    let changed = matches!(c.entry(r.page), Place::Excl { dirty: true, .. });
    (
        c.log(i).count(),
        c.txns(i).unresolved().len(),
        changed,
        value,
    )
}
