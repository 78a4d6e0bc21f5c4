//! What `analyze` wrote, `check` finds inductive.
ghost use Rattle.std.specs.Prelude.{◌≡◌, ◌≤◌, ◌∷◌, [], ℕ, length, codes, true, Some};
ghost use Rattle.report_texts.specs.Modes.{Mode};
ghost use Rattle.trop_words.specs.declared.command.Command.TheVariants.{Analyze};
ghost use Rattle.tplib_cmd.specs.declared.status.Status.{Status};
ghost use Rattle.tplib_cmd.specs.Analyses.{word_of};
ghost use Rattle.tplib_cmd.specs.Streams.{longest_input};
ghost use Rattle.tplib_cmd.specs.Ends.{Run, EndsWell, EndsWith};
ghost use Rattle.tplib_laws.specs.RoundTrips.{EndsRightly};
ghost use Rattle.tplib_laws.specs.Inductive.{IsFoundInductive, NoStop};

/// A run of `analyze` in one of the two modes that reports name, which ends with status 0, and a run with the word `check` on the text that it wrote, where that is
/// no longer than an input may be. The second run answers with status 0 and the line `inductive`. Else it ends with a
/// fault of its source or of its sink, or for want of memory, and with nothing else.
pub fn check_takes_analyze()
    ensures { (mode : Mode) (delay narrow : ℕ) (run other : Run) (status : Status)
        (first : EndsWell (Analyze (word_of mode) delay narrow) run true) → length first.text ≤ longest_input
        → other.in_before.left ≡ Some first.text → EndsWith (codes "check" ∷ []) other status
        → EndsRightly IsFoundInductive NoStop other status }
{}
