//! The kinds of files.
ghost use Rattle.std.specs.Prelude.{◌≡◌};
ghost use Rattle.trop_files.specs.FileKinds.{word_of};

/// The kinds of files.
#[derive(Clone, Copy, Debug, PartialEq, Eq)]
pub(crate) enum FileKind {
    /// Inequalities.
    Ineqs,
    /// Generators.
    Gens,
    /// Two lists of generators.
    Pair,
    /// Inequalities and a vector.
    At,
}

impl FileKind {
    /// The word by which a header names it.
    pub(crate) fn word(self) -> &'static [u8]
        ensures { result.now ≡ word_of self }
    {
        match self {
            FileKind::Ineqs => b"ineqs",
            FileKind::Gens => b"gens",
            FileKind::Pair => b"pair",
            FileKind::At => b"at",
        }
    }
}
