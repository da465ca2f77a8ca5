//! A complex that is open, or what is left of one that is closed.

use sd_state::{Complex, Shape};

/// A complex that is open; or, of one that is closed, its devices, and the shape in which it opens again.
#[derive(Drop)]
pub enum Body<G> {
    Open(Complex<G>),
    Closed(G, Shape),
}
