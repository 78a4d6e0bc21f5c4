// The places of entries.
ghost use Rattle.std.specs.Prelude.{◌≡◌, ◌≤◌, List, length, replicate, IsOk, IfOk, refl};
ghost use Rattle.std.specs.Borrow.{sem, Lends, Array};

use smallvec::SmallVec;
use std::alloc::{AllocError, Global};

/// Where the entries of a row stand: a list of elements, of which up to 8 stand in the value itself and need no memory.
pub trait Entries<S>: Drop {
    /// The elements in order.
    ghost items: { Self → List S };

    /// The same with these elements in place of those that stand there.
    ghost with_items: { Self → List S → Self };

    /// Copies of these elements. It can fail only for more than 8.
    fn from_slice(alloc: Global, entries: &[S]) -> Result<Self, AllocError>
        ensures ok { IfOk result (λ v. items v ≡ entries.now) }
        ensures short { length entries.now ≤ 8 → IsOk result };

    /// So many times one element. It can fail only for more than 8.
    fn filled(alloc: Global, n: usize, x: S) -> Result<Self, AllocError>
        ensures ok { IfOk result (λ v. items v ≡ replicate n x) }
        ensures short { n ≤ 8 → IsOk result };

    /// The elements.
    fn as_slice(&self) -> &[S]
        ensures { result.now ≡ items self.now };

    /// The elements, to be written over.
    fn as_mut_slice(&mut self) -> &mut [S]
        ensures* writes_back { sem 𝓛 (Lends Self.row (Array S.row 0) self.entry result (with_items self.old)) }
        ensures value { result.now ≡ items self.old };

    /// What is written stands there.
    ghost written: { (v : Self) (xs : List S) → length xs ≡ length (items v) → items (with_items v xs) ≡ xs };
}

impl<S: Copy + Default> Entries<S> for SmallVec<S, 8> {
    ghost items = { λ v. v.items };

    ghost use Rattle.smallvec.specs.SmallVec.{with_items};
    ghost use Rattle.plain_lemmas.proofs.Lists.{refill-all};

    ghost with_items = { with_items };

    ghost written = { λ v xs e. refill-all v.items xs e };

    fn from_slice(alloc: Global, entries: &[S]) -> Result<SmallVec<S, 8>, AllocError> {
        if entries.len() > 8 {
            return Ok(SmallVec::from_vec(Vec::from_slice(alloc, entries)?));
        }
        SmallVec::from_slice(alloc, entries)
    }

    fn filled(alloc: Global, n: usize, x: S) -> Result<SmallVec<S, 8>, AllocError> {
        let mut entries = SmallVec::with_capacity(alloc, n)?;
        for k in 0..n {
            entries.push_reserved(x);
        }
        Ok(entries)
    }

    fn as_slice(&self) -> &[S] {
        self.as_slice()
    }

    fn as_mut_slice(&mut self) -> &mut [S] {
        self.as_mut_slice()
    }
}
