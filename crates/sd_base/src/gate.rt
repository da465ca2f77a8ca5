//! What is called before and after each turn of a worker.

use crate::InstNo;

/// A gate round the turns of the workers. It can't wait, so its calls return.
pub trait Gate {
    /// Comes before the turn of this number, counted from 1 for each worker.
    fn pass(&self, inst: InstNo, turn: u64);

    /// Comes after it.
    fn passed(&self, inst: InstNo, turn: u64);
}

/// A gate that does nothing.
#[derive(Clone, Copy, Debug)]
pub struct OpenGate;

impl Gate for OpenGate {
    fn pass(&self, _inst: InstNo, _turn: u64) {}

    fn passed(&self, _inst: InstNo, _turn: u64) {}
}
