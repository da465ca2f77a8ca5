//! Sets of instances in one byte: instance n is bit n - 1.

ghost use Rattle.std.specs.Prelude.{◌≡◌, ◌^◌, ◌-◌, [], ◌∷◌, ◌↔◌, ◌≤◌, IsTrue, IfSome};
ghost use Rattle.sd_base.specs.Sets.{members, has, without, with_member, first};

use crate::InstNo;

/// A set of instances. Contracts see its rising list of members.
#[derive(Clone, Copy, Debug, PartialEq, Eq)]
pub struct InstSet {
    pub bits: u8,
}

impl InstSet {
    /// The set without members.
    pub const EMPTY: InstSet = InstSet { bits: 0 };

    /// The set of one instance.
    pub fn only(i: InstNo) -> InstSet
        ensures { members result.bits ≡ i ∷ [] }
    {
        InstSet { bits: bit(i) }
    }

    /// Whether the instance is in it.
    pub fn has(self, i: InstNo) -> bool
        ensures { result ≡ has i (members self.bits) }
    {
        self.bits & bit(i) != 0
    }

    /// The set with the instance.
    pub fn with(self, i: InstNo) -> InstSet
        ensures { members result.bits ≡ with_member i (members self.bits) }
    {
        InstSet {
            bits: self.bits | bit(i),
        }
    }

    /// The set without the instance.
    pub fn without(self, i: InstNo) -> InstSet
        ensures { members result.bits ≡ without i (members self.bits) }
    {
        InstSet {
            bits: self.bits & (255 - bit(i)),
        }
    }

    /// Its lowest member.
    pub fn first(self) -> Option<InstNo>
        ensures { result ≡ first (members self.bits) }
    {
        match lowest(self.bits) {
            None => None,
            Some(n) => InstNo::new(n),
        }
    }

    /// Whether it has no member.
    pub fn is_empty(self) -> bool
        ensures { IsTrue result ↔ (members self.bits ≡ []) }
    {
        self.bits == 0
    }
}

fn bit(i: InstNo) -> u8
    ensures value { result ≡ 2 ^ (i - 1) }
    ensures low { 1 ≤ i }
    ensures high { i ≤ 8 }
{
    1 << (i.get() - 1)
}

// The number of the lowest member.
fn lowest(bits: u8) -> Option<u8>
    ensures value { result ≡ first (members bits) }
    ensures low { IfSome result (λ n. 1 ≤ n) }
    ensures high { IfSome result (λ n. n ≤ 8) }
{
    if bits & 1 != 0 {
        return Some(1);
    }
    if bits & 2 != 0 {
        return Some(2);
    }
    if bits & 4 != 0 {
        return Some(3);
    }
    if bits & 8 != 0 {
        return Some(4);
    }
    if bits & 16 != 0 {
        return Some(5);
    }
    if bits & 32 != 0 {
        return Some(6);
    }
    if bits & 64 != 0 {
        return Some(7);
    }
    if bits & 128 != 0 {
        return Some(8);
    }
    None
}
