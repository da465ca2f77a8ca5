//! How instances stand.

ghost use Rattle.std.specs.Prelude.{◌≡◌, ◌≤◌, IfErr, OnErr, OnOk};
ghost use Rattle.sd_base.specs.declared.place.Status.TheVariants as S;
ghost use Rattle.sd_base.specs.declared.refusal.Refusal.TheVariants as R;
ghost use Rattle.sd_state.specs.Complexes.{parts};
ghost use Rattle.sd_state.specs.Parts.{IsShape, status_at};

use sd_base::{InstNo, Refusal, Status};
use sd_state::Complex;

/// Whether the instance is up: `Down` where it isn't.
pub fn expect_up<G>(c: &Complex<G>, i: InstNo) -> Result<(), Refusal>
    requires { IsShape (parts c.now) }
    ensures up { OnOk result (status_at (parts c.now) i ≡ S.Up) }
    ensures down { OnErr result (status_at (parts c.now) i ≡ S.Up → ⊥) }
    ensures only { IfErr result (λ e. e ≡ R.Down) }
    ensures low { 1 ≤ i }
    ensures high { i ≤ 8 }
{
    i.keeps();
    match c.status(i) {
        Status::Up => Ok(()),
        _ => Err(Refusal::Down),
    }
}
