//! Systems of inequalities.
ghost use Rattle.std.specs.Prelude.{◌≡◌, ◌+◌, ◌^◌, ◌<◌, ◌≤◌, ◌↔◌, [], ◌∷◌, ◌++◌, OnOk, OnErr, IsOk, IsSome, All, length, slice_get, Some};
ghost use Rattle.std.specs.Option.{option_to_list};
ghost use Rattle.trop_theory.specs.Inequalities.{IsIn};

use crate::inequality::Ineq;
use std::alloc::{AllocError, Global};
use std::marker::Model;
use trop_scalar::Scalar;

type NoMemory = AllocError;

/// A list of at most 2^31 inequalities in `n` coordinates, `n` from 1 to 64. Contracts see beside it the number
/// `spare`: how many inequalities can be pushed before memory is asked for.
#[derive(Drop)]
pub struct System<S: Scalar> {
    n: u32,
    inequalities: Vec<Ineq<S>>,
}

impl<S: Scalar> Model for System<S> {
    ghost use Rattle.std.specs.Prelude.{All, length, ◌-◌, ◌≤◌, ◌^◌, vec_len, vec_capacity};
    ghost use Rattle.trop_theory.specs.Inequalities.{IsIn};
    ghost use Rattle.trop_row.specs.Lists.{InequalityList};

    ghost Value = { InequalityList S };

    ghost view = { λ a. record {
      n = a.n;
      inequalities = a.inequalities.items;
      spare =
          vec_capacity a.inequalities - vec_len a.inequalities;
    } };

    ghost invariant = { λ a. (1 ≤ a.n) × (a.n ≤ 64) × (length a.inequalities.items ≤ 2 ^ 31) ×
        All (IsIn a.n) a.inequalities.items };
}

impl<S: Scalar> System<S> {
    /// The empty list of inequalities in `n` coordinates.
    pub fn new(alloc: Global, n: u32) -> System<S>
        requires at_least { 1 ≤ n }
        requires at_most { n ≤ 64 }
        ensures width { result.n ≡ n }
        ensures inequalities { result.inequalities ≡ [] }
    {
        System {
            n,
            inequalities: Vec::new(alloc),
        }
    }

    /// Appends the inequality. With room to spare it needs no memory.
    pub fn push(&mut self, ineq: Ineq<S>) -> Result<(), NoMemory>
        requires wide { IsIn self.old.n ineq }
        requires room { length self.old.inequalities < 2 ^ 31 }
        ensures ok { OnOk result (self.new.inequalities ≡ self.old.inequalities ++ ineq ∷ []) }
        ensures err { OnErr result (self.new.inequalities ≡ self.old.inequalities) }
        ensures width { self.new.n ≡ self.old.n }
        ensures succeeds { 1 ≤ self.old.spare → IsOk result }
        ensures spare { self.old.spare ≤ self.new.spare + 1 }
    {
        self.inequalities.push(ineq)?;
        Ok(())
    }

    /// Takes the last inequality off the list; none where the list is empty.
    pub fn pop(&mut self) -> Option<Ineq<S>>
        ensures inequalities { self.old.inequalities ≡ self.new.inequalities ++ option_to_list result }
        ensures some { IsSome result ↔ (0 < length self.old.inequalities) }
        ensures width { self.new.n ≡ self.old.n }
        ensures spare { self.old.spare ≤ self.new.spare }
    {
        self.inequalities.pop()
    }

    /// Makes room for `more` inequalities beside those that stand.
    pub fn reserve(&mut self, more: u32) -> Result<(), NoMemory>
        ensures spare { OnOk result (more ≤ self.new.spare) }
        ensures inequalities { self.new.inequalities ≡ self.old.inequalities }
        ensures width { self.new.n ≡ self.old.n }
    {
        self.inequalities.reserve(more as usize)
    }

    /// The number of inequalities.
    pub fn len(&self) -> u32
        ensures len { result ≡ length self.now.inequalities }
        ensures room { result ≤ 2 ^ 31 }
    {
        self.inequalities.len() as u32
    }

    /// The number of coordinates.
    pub fn n(&self) -> u32
        ensures value { result ≡ self.now.n }
        ensures at_least { 1 ≤ result }
        ensures at_most { result ≤ 64 }
    {
        self.n
    }

    /// The inequality at place `k`, from 0.
    pub fn get(&self, k: u32) -> &Ineq<S>
        requires { k < length self.now.inequalities }
        ensures value { slice_get self.now.inequalities k ≡ Some result.now }
        ensures wide { IsIn self.now.n result.now }
    {
        &self.inequalities[k as usize]
    }

    /// The inequalities in order.
    pub fn as_slice(&self) -> &[Ineq<S>]
        ensures inequalities { result.now ≡ self.now.inequalities }
        ensures wide { All (IsIn self.now.n) self.now.inequalities }
        ensures at_least { 1 ≤ self.now.n }
        ensures at_most { self.now.n ≤ 64 }
        ensures room { length self.now.inequalities ≤ 2 ^ 31 }
    {
        self.inequalities.as_slice()
    }
}
