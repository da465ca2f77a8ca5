//! Draws, one after another, from a state of 64 bits. They know nothing of what is drawn.

ghost use Rattle.std.specs.Prelude.{◌≡◌};
ghost use Rattle.sd_gen.specs.Draws.{drawn, next_state};

const FACTOR: u64 = 6_364_136_223_846_793_005;

const STEP: u64 = 1_442_695_040_888_963_407;

/// The state that the last draw left.
#[derive(Drop)]
pub(crate) struct Draws {
    state: u64,
}

impl Draws {
    /// Draws from this state on.
    pub(crate) fn from(state: u64) -> Draws
        ensures { result.state ≡ state }
    {
        Draws { state }
    }

    /// The next draw, of 31 bits.
    pub(crate) fn draw(&mut self) -> u64
        ensures drawn { result ≡ drawn 1 self.old.state }
        ensures state { self.new.state ≡ next_state self.old.state }
    {
        self.state = self.state.wrapping_mul(FACTOR).wrapping_add(STEP);
        self.state >> 33
    }
}
