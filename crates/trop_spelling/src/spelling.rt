//! Semirings whose elements have texts.
ghost use Rattle.std.specs.Prelude.{◌≡◌, ◌++◌, OnOk, OnErr, IfOk, refl};
ghost use Rattle.trop_spelling.specs.declared.ring_kind.RingKind.{RingKind};
ghost use Rattle.trop_spelling.specs.declared.ring_kind.RingKind.TheVariants as kinds;
ghost use Rattle.trop_spelling.specs.Spelling.{KindLaws, element_text, ring_word, sum_word, order_word};
ghost use Rattle.trop_spelling.specs.Over.{Three, IsThree, max_three, min_three, bool_three};
ghost use Rattle.std.specs.Fmt.{signed_decimal};
ghost use Rattle.trop_scalar.specs.MaxPlusLaws.{max_numeric_laws};
ghost use Rattle.trop_scalar.specs.MinPlusLaws.{min_numeric_laws};
ghost use Rattle.trop_spelling.specs.SpellingLaws.{truth_only};

use crate::RingKind;
use itoa::Buffer;
use std::alloc::{AllocError, Global};
use trop_scalar::{Flag, MaxInt, MinInt, Scalar};

/// Want of memory.
pub type NoMemory = AllocError;

/// A semiring whose elements have texts.
///
/// | | max | min | bool |
/// |---|---|---|---|
/// | finite element | its number | its number | `true` |
/// | the zero | `-oo` | `oo` | `false` |
/// | sum word | `max` | `min` | `or` |
/// | order word | `<=` | `>=` | `=>` |
///
/// Numbers have no leading zeros and no `-0`.
pub trait Spelling: Scalar {
    /// Which of the three it is.
    ghost KIND: { RingKind };

    /// Which of the three it is.
    const KIND: RingKind;

    /// It as one of the three: what is true of each of them is true of it.
    ghost three: { Three Self };

    /// Appends the element as it is printed. After want of memory the text is as before.
    fn push_element(self, text: &mut Vec<u8>) -> Result<(), NoMemory>
        ensures ok { OnOk result (text.new.items ≡ text.old.items ++ element_text KIND (Self.numbering.to self)) }
        ensures err { OnErr result (text.new.items ≡ text.old.items) };

    /// The word that names the semiring in the header of a file.
    fn ring_word() -> &'static [u8]
        ensures { result.now ≡ ring_word KIND };

    /// The word before the terms of a sum.
    fn sum_word() -> &'static [u8]
        ensures { result.now ≡ sum_word KIND };

    /// The word between the sides of an inequality whose left side is at most the right one in the semiring's order.
    fn order_word() -> &'static [u8]
        ensures { result.now ≡ order_word KIND };

    /// The element as it is printed.
    fn element_text(self, alloc: Global) -> Result<Vec<u8>, NoMemory>
        ensures { IfOk result (λ text. text.items ≡ element_text KIND (Self.numbering.to self)) }
    {
        let mut text = Vec::new(alloc);
        self.push_element(&mut text)?;
        Ok(text)
    }

    /// `max` and `min` have whole numbers as their finite elements, and the order is reversed for `min`; `bool` has
    /// just two elements.
    ghost kind_laws: { KindLaws KIND Self.ring Self.numbering Self.REVERSED };

    /// Its operations and its numbering are those of its kind.
    ghost three_laws: { IsThree three KIND Self.ring Self.numbering };
}

impl Spelling for MaxInt {
    ghost KIND = { kinds.Max };

    const KIND: RingKind = RingKind::Max;

    ghost three = { max_three };

    ghost kind_laws = { (max_numeric_laws, refl) };

    ghost three_laws = { record { kind_is = refl; ring_is = refl; numbering_is = refl } };

    fn push_element(self, text: &mut Vec<u8>) -> Result<(), NoMemory> {
        match self.number() {
            None => text.extend_from_slice(b"-oo"),
            Some(n) => push_number(text, n),
        }
    }

    fn ring_word() -> &'static [u8] {
        b"max"
    }

    fn sum_word() -> &'static [u8] {
        b"max"
    }

    fn order_word() -> &'static [u8] {
        b"<="
    }
}

impl Spelling for MinInt {
    ghost KIND = { kinds.Min };

    const KIND: RingKind = RingKind::Min;

    ghost three = { min_three };

    ghost kind_laws = { (min_numeric_laws, refl) };

    ghost three_laws = { record { kind_is = refl; ring_is = refl; numbering_is = refl } };

    fn push_element(self, text: &mut Vec<u8>) -> Result<(), NoMemory> {
        match self.number() {
            None => text.extend_from_slice(b"oo"),
            Some(n) => push_number(text, n),
        }
    }

    fn ring_word() -> &'static [u8] {
        b"min"
    }

    fn sum_word() -> &'static [u8] {
        b"min"
    }

    fn order_word() -> &'static [u8] {
        b">="
    }
}

impl Spelling for Flag {
    ghost KIND = { kinds.Bool };

    const KIND: RingKind = RingKind::Bool;

    ghost three = { bool_three };

    ghost kind_laws = { truth_only };

    ghost three_laws = { record { kind_is = refl; ring_is = refl; numbering_is = refl } };

    fn push_element(self, text: &mut Vec<u8>) -> Result<(), NoMemory> {
        match self.number() {
            None => text.extend_from_slice(b"false"),
            Some(_) => text.extend_from_slice(b"true"),
        }
    }

    fn ring_word() -> &'static [u8] {
        b"bool"
    }

    fn sum_word() -> &'static [u8] {
        b"or"
    }

    fn order_word() -> &'static [u8] {
        b"=>"
    }
}

// Appends the number without leading zeros.
pub(crate) fn push_number(text: &mut Vec<u8>, n: i64) -> Result<(), NoMemory>
    ensures ok { OnOk result (text.new.items ≡ text.old.items ++ signed_decimal n) }
    ensures err { OnErr result (text.new.items ≡ text.old.items) }
{
    let mut buffer = Buffer::new();
    text.extend_from_slice(buffer.format(n).as_bytes())
}
