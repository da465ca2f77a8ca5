//! What holds of every script that is generated.

ghost use Rattle.std.specs.Prelude.{ℕ, ◌≤◌, List};
ghost use Rattle.sd_script.specs.declared.line.Line.{Line};
ghost use Rattle.sd_script.specs.Reading.{IsScript};
ghost use Rattle.sd_gen.specs.Generated.{gen_text};

/// The text of up to 2,000 transfers is a script, whatever the number: no line of it is bad.
pub fn generated()
    ensures { (number count : ℕ) → count ≤ 2000 → (lines : List Line) × IsScript (gen_text number count) lines }
{}
