// An extreme row with what is carried beside it.
ghost use Rattle.std.specs.Prelude.{◌≡◌, ◌⊎◌, ◌↔◌, ℕ, IfOk, OnOk, OnErr};
ghost use Rattle.trop_pruning.specs.Slots.{Slot};
ghost use Rattle.trop_pruning.specs.Judged.{Side};
ghost use Rattle.trop_pruning.specs.Kept.{HasEdgeAdded, IsPut};
ghost use Rattle.trop_criterion.specs.Hypergraphs.{Has};

use crate::slot::RowSlot;
use crate::words::RowWords;
use std::alloc::{AllocError, Global};
use std::marker::Model;
use trop_hyper::Mask;
use trop_row::Row;
use trop_scalar::Scalar;

/// A row, its words, its slot for each inequality, and the places of those that give a tangent hyperedge.
#[derive(Drop)]
pub struct Carried<S: Scalar> {
    /// A solution of the system.
    pub row: Row<S>,
    /// Its finite coordinates, its types and its cover.
    pub words: RowWords,
    /// Its slot for each inequality of the system, in their order.
    pub slots: Vec<RowSlot<S>>,
    /// The places in `slots`, from 0, of those that give a tangent hyperedge.
    pub places: Vec<usize>,
}

impl<S: Scalar> Model for Carried<S> {
    ghost use Rattle.trop_pruning.specs.Judged.{Side};

    ghost Value = { Side S };

    ghost view = { λ a. record { row = a.row; words = a.words; slots = a.slots.items; places = a.places.items } };
}

impl<S: Scalar> Carried<S> {
    /// The slots.
    pub fn slots(&self) -> &[RowSlot<S>]
        ensures { result.now ≡ self.now.slots }
    {
        self.slots.as_slice()
    }

    /// The places.
    pub fn places(&self) -> &[usize]
        ensures { result.now ≡ self.now.places }
    {
        self.places.as_slice()
    }

    /// The finite coordinates.
    pub fn support(&self) -> Mask
        ensures { result ≡ self.now.words.support }
    {
        self.words.support
    }

    /// The words.
    pub fn words(&self) -> RowWords
        ensures { result ≡ self.now.words }
    {
        self.words
    }

    /// The types.
    pub fn types(&self) -> Mask
        ensures { result ≡ self.now.words.types }
    {
        self.words.types
    }

    /// The nodes that some tangent hyperedge leaves alone, with maybe others.
    pub fn cover(&self) -> Mask
        ensures { result ≡ self.now.words.cover }
    {
        self.words.cover
    }

    /// The row.
    pub fn row(&self) -> &Row<S>
        ensures { result.now ≡ self.now.row }
    {
        &self.row
    }

    /// The same row with the same things beside it, and room for one slot more.
    pub fn copy(&self, alloc: Global) -> Result<Carried<S>, AllocError>
        ensures { IfOk result (λ side. side ≡ self.now) }
    {
        let mut slots = Vec::with_capacity(alloc, self.slots.len() + 1)?;
        slots.extend_from_slice(self.slots.as_slice())?;
        let mut places = Vec::with_capacity(alloc, self.places.len() + 1)?;
        places.extend_from_slice(self.places.as_slice())?;
        Ok(Carried {
            row: self.row.copy(alloc)?,
            words: self.words,
            slots,
            places,
        })
    }

    /// A row without an entry, with nothing beside it.
    pub fn blank(alloc: Global) -> Result<Carried<S>, AllocError> {
        Ok(Carried {
            row: Row::bottom(alloc, 0)?,
            words: RowWords {
                support: Mask::empty(),
                types: Mask::empty(),
                cover: Mask::empty(),
            },
            slots: Vec::new(alloc),
            places: Vec::new(alloc),
        })
    }

    /// Puts one more slot behind the others. `take_back` undoes it, and `set_words` gives the row the words that belong
    /// to it.
    pub fn put(&mut self, slot: RowSlot<S>) -> Result<(), AllocError>
        ensures ok { OnOk result (IsPut self.old slot self.new) }
        ensures err { OnErr result (self.new ≡ self.old) }
    {
        if slot.head.is_empty() {
            self.slots.push(slot)?;
            return Ok(());
        }
        self.places.push(self.slots.len())?;
        if let Err(refused) = self.slots.push(slot) {
            let _place = self.places.pop();
            return Err(AllocError::from(refused));
        }
        Ok(())
    }

    /// Takes the last slot off again.
    pub fn take_back(&mut self)
        ensures { (old : Side S) (slot : Slot S) → IsPut old slot self.old → self.new ≡ old }
    {
        if let Some(slot) = self.slots.pop() {
            if !slot.head.is_empty() {
                let _place = self.places.pop();
            }
        }
    }

    /// Has these types, and these nodes in the cover beside those that are there.
    pub fn set_words(&mut self, types: Mask, alone: Mask)
        ensures row { self.new.row ≡ self.old.row }
        ensures support { self.new.words.support ≡ self.old.words.support }
        ensures types { self.new.words.types ≡ types }
        ensures cover { (u : ℕ) → (Has self.new.words.cover u → ⊥) →
            (Has self.old.words.cover u → ⊥) × (Has alone u → ⊥) }
        ensures slots { self.new.slots ≡ self.old.slots }
        ensures places { self.new.places ≡ self.old.places }
    {
        self.words = RowWords {
            support: self.words.support,
            types,
            cover: self.words.cover.union(alone),
        };
    }

    /// With one more slot, which gives a hyperedge that leaves these nodes alone. The types are these from then on.
    pub fn with_edge(
        self,
        slot: RowSlot<S>,
        types: Mask,
        alone: Mask,
    ) -> Result<Carried<S>, AllocError>
        ensures { IfOk result (HasEdgeAdded self slot types alone) }
    {
        let mut slots = self.slots;
        let mut places = self.places;
        places.push(slots.len())?;
        slots.push(slot)?;
        Ok(Carried {
            row: self.row,
            words: RowWords {
                support: self.words.support,
                types,
                cover: self.words.cover.union(alone),
            },
            slots,
            places,
        })
    }
}

/// The coordinates that are finite in one of two rows.
pub fn nodes_of<S: Scalar>(first: &Carried<S>, second: &Carried<S>) -> Mask
    ensures { (i : ℕ) → Has result i ↔ (Has first.now.words.support i ⊎ Has second.now.words.support i) }
{
    first.support().union(second.support())
}
