//! Two slots in memory, and which of them counts. It sees no device.

ghost use Rattle.std.specs.Prelude.{◌≡◌, ◌≤◌, length};
ghost use Rattle.sd_base.specs.Twin as twin;
ghost use Rattle.sd_rig.specs.Slots.{named_body, slot, slots_len};

use crate::gate::is_open;
use byteorder::{BigEndian, ByteOrder};

/// Which of two slots counts: the open one with the greater number. `other` tells whether the other slot is open too.
#[derive(Clone, Copy, PartialEq, Eq)]
pub enum Chosen {
    Neither,
    First { other: bool },
    Second { other: bool },
    /// Both are open, with equal numbers. No put leaves that.
    Same,
}

impl Chosen {
    ghost use Rattle.std.specs.Prelude.{IfSome, option_copied};

    /// The body that counts, of the two slots that `chosen_of` was asked about, with bodies of `body` bytes. `None` exactly
    /// of `Neither` and `Same`.
    pub fn body<'a>(self, body: usize, slots: &'a [u8]) -> Option<&'a [u8]>
        requires { length slots.now ≡ slots_len body }
        ensures bytes { option_copied result ≡ named_body self body slots.now }
        ensures len { IfSome (option_copied result) (λ bytes. length bytes ≡ body) }
    {
        match self {
            Chosen::First { .. } => Some(&slots[1..body + 1]),
            Chosen::Second { .. } => Some(&slots[body + 2..]),
            Chosen::Neither | Chosen::Same => None,
        }
    }
}

/// Which of two slots counts, one behind the other, each a gate byte and a body of `body` bytes.
pub fn chosen_of(slots: &[u8], body: usize) -> Chosen
    requires numbered { 8 ≤ body }
    requires whole { length slots.now ≡ slots_len body }
    ensures { slot result ≡ twin.chosen_slot 0 body slots.now }
{
    let second = body + 1;
    match (is_open(slots, 0), is_open(slots, second)) {
        (true, true) => newer(number_of(&slots[1..]), number_of(&slots[second + 1..])),
        (true, false) => Chosen::First { other: false },
        (false, true) => Chosen::Second { other: false },
        (false, false) => Chosen::Neither,
    }
}

// Of two open slots the one with the greater number.
fn newer(first: u64, second: u64) -> Chosen
    ensures { slot result ≡ twin.newer first second }
{
    if first < second {
        Chosen::Second { other: true }
    } else if second < first {
        Chosen::First { other: true }
    } else {
        Chosen::Same
    }
}

/// The number that a body begins with: its first eight bytes, the highest first.
pub fn number_of(body: &[u8]) -> u64
    requires { 8 ≤ length body.now }
    ensures { result ≡ twin.number_of body.now }
{
    BigEndian::read_u64(body)
}
