//! What one of `ext` and `int` wrote, the other one takes back.
ghost use Rattle.std.specs.Prelude.{◌≡◌, ◌∷◌, [], codes, true, Some};
ghost use Rattle.trop_words.specs.declared.command.Command.TheVariants.{Ext};
ghost use Rattle.tplib_cones.specs.Reduce.{IsReducedFile};
ghost use Rattle.tplib_cmd.specs.declared.status.Status.{Status};
ghost use Rattle.tplib_cmd.specs.Ends.{Run, EndsWell, EndsWith};
ghost use Rattle.tplib_laws.specs.RoundTrips.{plain_int, EndsRightly, FitsGenerators, IsBoundsOf, IsBoundsStopOf, FitsInequalities, IsFrontStopOf};

/// A run of `ext` that ends with status 0, and a run with the word `int` on the text that it wrote, where the numbers
/// of that text fit a file of generators. The second run answers with the text of the external list of the solutions
/// of the inequalities that the first one read, and the inequalities of that list have just these solutions. Else it
/// ends with the stop of that list, with a fault of its source or of its sink, or for want of memory, and with nothing
/// else.
pub fn int_takes_back_ext()
    ensures { (run other : Run) (status : Status) (first : EndsWell Ext run true)
        → FitsGenerators first.answered.said → other.in_before.left ≡ Some first.text
        → EndsWith (codes "int" ∷ []) other status
        → EndsRightly (IsBoundsOf first.answered.said) (IsBoundsStopOf first.answered.said) other status }
{}

/// A run of `int` that ends with status 0, and a run with the word `ext` on the text that it wrote, where the
/// inequalities of that text and their numbers fit a file of inequalities. The second run answers with the text of the
/// canonical list of the combinations of the rows that the first one read. Else it ends with the stop of the
/// inequalities of that text, with a fault of its source or of its sink, or for want of memory, and with nothing else.
pub fn ext_takes_back_int()
    ensures { (run other : Run) (status : Status) (first : EndsWell plain_int run true)
        → FitsInequalities first.answered.said → other.in_before.left ≡ Some first.text
        → EndsWith (codes "ext" ∷ []) other status
        → EndsRightly (IsReducedFile first.answered.said) (IsFrontStopOf first.answered.said) other status }
{}
