//! Which sum words asserts may have.
ghost use Rattle.std.specs.Prelude.{◌≡◌};
ghost use Rattle.prog_texts.specs.AssertRule.{is_against};
ghost use Rattle.prog_reading.specs.Rules.{rule_of};

use crate::before::is;

/// Which of the words `max` and `min` the asserts of a program may have.
#[derive(Clone, Copy, Debug, PartialEq, Eq)]
pub enum AssertRule {
    /// `max` alone.
    MaxOnly,
    /// `min` alone.
    MinOnly,
    /// Both.
    Any,
}

impl AssertRule {
    /// Whether this word is the one that the rule does not admit.
    pub fn is_against(self, word: &[u8]) -> bool
        ensures { result ≡ is_against (rule_of self) word.now }
    {
        match self {
            AssertRule::MaxOnly => is(word, b"min"),
            AssertRule::MinOnly => is(word, b"max"),
            AssertRule::Any => false,
        }
    }
}
