//! A complex is made on blank devices where there is memory, and a log of it is forced.

use sd_base::{InstNo, Refusal};
use sd_moves::fresh;
use sd_one::{Stop, blank};
use sd_state::{Complex, Shape};
use std::alloc::Global;

// Whether a log of a fresh complex is forced.
fn forces(alloc: Global) -> Result<bool, Stop> {
    let shape = Shape {
        insts: 8,
        pages: 1024,
        frames: 2,
    };
    let Some(inst) = InstNo::new(8) else {
        return Err(Stop::Odd);
    };
    match fresh(alloc, blank(alloc)?, shape) {
        Ok(mut complex) => Ok(complex.force_log(inst).is_ok()),
        Err(_) => Err(Stop::Refused(Refusal::Memory)),
    }
}

// The same, once more where there was no memory.
fn forces_at_last(alloc: Global) -> bool {
    match forces(alloc) {
        Ok(forced) => forced,
        Err(_) => matches!(forces(alloc), Ok(true)),
    }
}

#[test]
fn a_fresh_complex_finds_memory_and_forces_a_log(rt: HostRuntime) {
    assert!(rt; forces_at_last(rt.alloc()));
}
