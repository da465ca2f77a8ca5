//! A name as a number: comparing two names is comparing two numbers.

ghost use Rattle.std.specs.Prelude.{◌≡◌, ℕ, List};
ghost use Rattle.sd_script.specs.Forms.{IsName};
ghost use Rattle.sd_script.specs.Packed.{packed_of};

/// The number of a name: its bytes are the digits, to the base 256. No other name has it.
pub(crate) fn packed(name: &[u8]) -> u128
    requires { IsName name.now }
    ensures number { result ≡ packed_of name.now }
    ensures own { (other : List ℕ) → IsName other → packed_of other ≡ result → other ≡ name.now }
{
    let mut number = 0u128;
    for byte in name {
        number = number * 256 + u128::from(*byte);
    }
    number
}
