//! Laws of the definitions, each on a function without a body to run.

ghost use Rattle.std.specs.Prelude.{◌≡◌, ℕ, List};
ghost use Rattle.std.specs.List.{AllByRecursion};
ghost use Rattle.kernel_values.specs.SceneLaw.{SceneValue, IsLawfulScene};
ghost use Rattle.kernel_values.specs.declared.entry.Entry.{Entry};
ghost use Rattle.report_text.specs.declared.form.Form.TheVariants.{History};
ghost use Rattle.report_text.specs.Forms.{report};
ghost use Rattle.report_text.specs.Histories.{TellsOnly};
ghost use Rattle.report_text.specs.Lines.{text_of};
ghost use Rattle.report_text.specs.Plain.{IsLine};
ghost use Rattle.report_text.specs.Within.{AreWithin};

/// A text fixes its lines and their words: two lists of lines with the same text are equal.
pub fn text_fixes_lines()
    ensures { (xs ys : List (List (List ℕ))) → AllByRecursion IsLine xs → AllByRecursion IsLine ys → text_of xs ≡ text_of ys → xs ≡ ys }
{}

/// A report in the history form fixes its history: two legal and whole histories of a scene that have the
/// same report are equal. The numbers of their calls are within the types that the program has for them.
pub fn reports_fix_histories()
    ensures { (scene : SceneValue) (entries : List Entry) → IsLawfulScene scene → AreWithin entries → TellsOnly scene entries (report scene entries History) }
{}
