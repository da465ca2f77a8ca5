//! The name that was begun last.

ghost use Rattle.std.specs.Prelude.{◌≡◌, IfSome};
ghost use Rattle.sd_script.specs.Forms.{IsName, IsNameText};

use sd_base::Word;

/// A name and its ordinal.
#[derive(Drop)]
pub(crate) struct Newest {
    pub(crate) name: Word,
    pub(crate) ordinal: u32,
    ghost is_name: { IsNameText name },
}

impl Newest {
    pub(crate) fn of(name: Word, ordinal: u32) -> Newest
        requires { IsName name }
        ensures name { result.name ≡ name }
        ensures ordinal { result.ordinal ≡ ordinal }
    {
        Newest { name, ordinal }
    }

    /// The ordinal, where the word is the name.
    pub(crate) fn get(&self, word: &[u8]) -> Option<u32>
        ensures name { IfSome result (λ _. IsName word.now) }
        ensures same { IfSome result (λ _. self.now.name ≡ word.now) }
        ensures ordinal { IfSome result (λ ordinal. ordinal ≡ self.now.ordinal) }
    {
        if self.name.items() == word {
            Some(self.ordinal)
        } else {
            None
        }
    }
}
