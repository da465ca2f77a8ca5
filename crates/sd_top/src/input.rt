//! Reading a source whole, up to a bound.

ghost use Rattle.std.specs.Prelude.{◌≡◌, ℕ, ◌<◌, ◌≤◌, List, length, vec_len, IfOk};
ghost use Rattle.sd_base.specs.Streams.{Rises};
ghost use Rattle.sd_top.specs.Input.{Taken, IsAtEnd};
ghost use Rattle.sd_top.specs.declared.input.InputError.TheVariants.{Memory};

use sd_base::Source;
use std::alloc::{AllocError, Global};

/// The most bytes that are taken from a source: one more than a script may have.
pub const MOST_BYTES: usize = 4_194_305;

const PIECE: usize = 8_192;

/// Why a source wasn't read.
#[derive(Clone, Copy, Debug, PartialEq, Eq)]
pub enum InputError {
    /// The source failed: its count of faults rose.
    Fault,
    Memory,
}

impl From<AllocError> for InputError {
    ghost from_gives = { λ _ e. e ≡ Memory };

    fn from(_: AllocError) -> Self {
        InputError::Memory
    }
}

/// The bytes of the source up to its end, or its next `MOST_BYTES`, where it has as many.
/// Each turn takes a byte, ends the input, or is a fault.
///
/// `Fault` comes only where the source's count of faults rose, and `Memory` where there was none for the bytes; those that were
/// taken until then are gone from the source.
pub fn read_all<S: Source>(alloc: Global, source: &mut S) -> Result<Vec<u8>, InputError>
    ensures taken { IfOk result (λ text. Taken (S.left source.old) text.items (S.left source.new)) }
    ensures whole { IfOk result (λ text. vec_len text < MOST_BYTES → IsAtEnd (S.left source.new)) }

    // Also where it fails, no more than so many bytes are gone from the source.
    ensures bounded { (text : List ℕ) × (length text ≤ MOST_BYTES) × Taken (S.left source.old) text (S.left source.new) }
    ensures bound { IfOk result (λ text. vec_len text ≤ MOST_BYTES) }
    ensures fault { result ≡ Err InputError.Fault → Rises (S.faults source.old) (S.faults source.new) }
    ensures count { S.faults source.old ≤ S.faults source.new }
{
    let mut text = Vec::new(alloc);
    let mut piece = [0u8; PIECE];
    while text.len() < MOST_BYTES {
        let room = PIECE.min(MOST_BYTES - text.len());
        let taken = match source.take(&mut piece[..room]) {
            Ok(taken) => taken,
            Err(_) => return Err(InputError::Fault),
        };
        if taken == 0 {
            break;
        }
        text.extend_from_slice(&piece[..taken])?;
    }
    Ok(text)
}
