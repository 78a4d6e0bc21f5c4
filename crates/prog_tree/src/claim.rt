//! Claims: what an assert says.

ghost use Rattle.std.specs.Prelude.{◌≡◌, ◌<◌, ◌∷◌, ◌++◌, [], Some, map, length, slice_get, OnOk, OnErr};
ghost use Rattle.prog_theory.specs.Within.{IsSide};
ghost use Rattle.prog_tree.specs.Terms.{term_of};
ghost use Rattle.prog_tree.specs.Words.{word_of};

use crate::NoMemory;
use crate::term::Term;
use std::alloc::Global;
use std::marker::Model;

/// How a claim compares its sides.
#[derive(Clone, Copy, Debug, PartialEq, Eq)]
pub enum Rel {
    /// `<=`
    Le,
    /// `>=`
    Ge,
    /// `=`
    Same,
}

/// Which word stands before the terms of a side.
#[derive(Clone, Copy, Debug, PartialEq, Eq)]
pub enum SideWord {
    /// No word: the side is its one term.
    One,
    /// `max`: the greatest of the terms.
    Max,
    /// `min`: the least of them.
    Min,
}

/// A list of terms.
#[derive(Drop)]
pub struct Terms {
    items: Vec<Term>,
}

impl Model for Terms {
    ghost use Rattle.std.specs.Prelude.{List, map};
    ghost use Rattle.prog_theory.specs.States as theory;
    ghost use Rattle.prog_tree.specs.Terms.{term_of};

    ghost Value = { List theory.Term };

    ghost view = { λ t. map term_of t.items.items };
}

impl Terms {
    /// No term.
    pub fn new(alloc: Global) -> Terms
        ensures { result ≡ [] }
    {
        Terms {
            items: Vec::new(alloc),
        }
    }

    /// Appends a term. Want of memory leaves the list as it was.
    pub fn push(&mut self, item: Term) -> Result<(), NoMemory>
        ensures added { OnOk result (self.new ≡ self.old ++ term_of item ∷ []) }
        ensures unchanged { OnErr result (self.new ≡ self.old) }
    {
        self.items.push(item)?;
        Ok(())
    }

    /// The number of terms.
    pub fn len(&self) -> usize
        ensures { result ≡ length self.now }
    {
        self.items.len()
    }

    /// The term at a place, from 0.
    pub fn get(&self, k: usize) -> &Term
        requires { k < length self.now }
        ensures { slice_get self.now k ≡ Some (term_of result.now) }
    {
        &self.items[k]
    }

    /// The terms in order.
    pub fn as_slice(&self) -> &[Term]
        ensures { map term_of result.now ≡ self.now }
    {
        self.items.as_slice()
    }
}

/// A side of a claim. It has a term, and just one where no word stands before it.
#[derive(Drop)]
pub struct Side {
    word: SideWord,
    terms: Terms,
}

impl Model for Side {
    ghost use Rattle.prog_theory.specs.Statements as tree;
    ghost use Rattle.prog_theory.specs.Within.{IsSide};
    ghost use Rattle.prog_tree.specs.Words.{word_of};

    ghost Value = { tree.Side };

    ghost view = { λ s. record { word = word_of s.word; terms = s.terms } };

    ghost invariant = { λ s. IsSide (word_of s.word) s.terms };
}

impl Side {
    /// The side of a word and its terms.
    pub fn new(word: SideWord, terms: Terms) -> Side
        requires { IsSide (word_of word) terms }
        ensures { result ≡ record { word = word_of word; terms = terms } }
    {
        Side { word, terms }
    }

    /// The word before the terms.
    pub fn word(&self) -> SideWord
        ensures value { word_of result ≡ self.now.word }
        ensures side { IsSide self.now.word self.now.terms }
    {
        self.word
    }

    /// The terms.
    pub fn terms(&self) -> &Terms
        ensures value { result.now ≡ self.now.terms }
        ensures side { IsSide self.now.word self.now.terms }
    {
        &self.terms
    }
}

/// What an assert says: how the values of two sides compare.
#[derive(Drop)]
pub struct Claim {
    /// The side before the sign.
    pub left: Side,
    /// How the value of the left side is to compare with that of the right one.
    pub rel: Rel,
    /// The side behind the sign.
    pub right: Side,
}
