//! Equal bytes are equal cones.
ghost use Rattle.std.specs.Prelude.{◌≡◌, ◌↔◌, true};
ghost use Rattle.trop_words.specs.declared.command.Command.TheVariants.{Ext, Reduce};
ghost use Rattle.tplib_cmd.specs.Ends.{Run, EndsWell};
ghost use Rattle.tplib_laws.specs.EqualBytes.{HaveOneHeader, HaveEqualSolutions, HaveOneGeneratorHeader, HaveEqualCones};

/// Two runs of `ext` that end with status 0, on files with one header: what they wrote has equal bytes exactly where
/// the inequalities that they read have the same solutions.
pub fn equal_bytes_are_equal_solutions()
    ensures { (run other : Run) (first : EndsWell Ext run true) (second : EndsWell Ext other true)
        → HaveOneHeader first.answered.said second.answered.said
        → (first.text ≡ second.text) ↔ HaveEqualSolutions first.answered.said second.answered.said }
{}

/// Two runs of `reduce` that end with status 0, on files with one header: what they wrote has equal bytes exactly where
/// the rows that they read have the same combinations.
pub fn equal_bytes_are_equal_cones()
    ensures { (run other : Run) (first : EndsWell Reduce run true) (second : EndsWell Reduce other true)
        → HaveOneGeneratorHeader first.answered.said second.answered.said
        → (first.text ≡ second.text) ↔ HaveEqualCones first.answered.said second.answered.said }
{}
