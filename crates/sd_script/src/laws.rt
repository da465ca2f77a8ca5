//! What holds of every text, whoever reads it.

ghost use Rattle.std.specs.Prelude.{◌≡◌, ℕ, ◌-◌, ◌⊎◌, List, Some, slice_get, true};
ghost use Rattle.sd_base.specs.declared.refusal.LineError.{LineError};
ghost use Rattle.sd_base.specs.declared.refusal.LineError.TheVariants as cause;
ghost use Rattle.sd_script.specs.declared.line.Line.{Line};
ghost use Rattle.sd_script.specs.Causes.{Holds, IsCause};
ghost use Rattle.sd_script.specs.Reading.{IsScript, IsBadAt, ReadsAs};
ghost use Rattle.sd_script.specs.Text.{is_idle, lines_of};

/// A text is a script of one list of lines at most.
pub fn one_reading()
    ensures { (text : List ℕ) (lines others : List Line) →
        IsScript text lines → IsScript text others → lines ≡ others }
{}

/// A script is bad at no line.
pub fn no_bad_script()
    ensures { (text : List ℕ) (lines : List Line) (n : ℕ) (cause : LineError) →
        IsScript text lines → IsBadAt text n cause → ⊥ }
{}

/// A text is bad at one line at most, for one cause.
pub fn one_bad_line()
    ensures { (text : List ℕ) (m n : ℕ) (c d : LineError) → IsBadAt text m c → IsBadAt text n d → (m ≡ n) × (c ≡ d) }
{}

/// A line has one first cause at most.
pub fn one_cause()
    ensures { (before : List Line) (bytes : List ℕ) (number end : ℕ) (c d : LineError) → IsCause before bytes number end c
        → IsCause before bytes number end d → c ≡ d }
{}

/// No cause holds of a line that reads.
pub fn no_cause_of_good()
    ensures { (before : List Line) (bytes : List ℕ) (number end : ℕ) (line : Line) → ReadsAs before bytes number end line
        → (c : LineError) → Holds before bytes number end c → ⊥ }
{}

/// A blank line or a comment is bad for its size or a byte of it alone.
pub fn limits_of_idle()
    ensures { (text : List ℕ) (n : ℕ) (c : LineError) (bytes : List ℕ) → IsBadAt text n c
        → slice_get (lines_of text) (n - 1) ≡ Some bytes → is_idle bytes ≡ true → (c ≡ cause.Size) ⊎ (c ≡ cause.Byte) }
{}
