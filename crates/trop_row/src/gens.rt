//! Lists of rows.
ghost use Rattle.std.specs.Prelude.{◌≡◌, ◌+◌, ◌^◌, ◌<◌, ◌≤◌, ◌↔◌, [], ◌∷◌, ◌++◌, OnOk, OnErr, IsOk, IsSome, length, slice_get, Some};
ghost use Rattle.std.specs.Option.{option_to_list};
ghost use Rattle.trop_theory.specs.Vectors.{AreWide};

use crate::row::Row;
use std::alloc::{AllocError, Global};
use std::marker::Model;
use trop_scalar::Scalar;

type NoMemory = AllocError;

/// A list of at most 2^31 rows, each of `n` entries, `n` from 1 to 64. Contracts see beside it the number `spare`: how
/// many rows can be pushed before memory is asked for.
#[derive(Drop)]
pub struct Gens<S: Scalar> {
    n: u32,
    rows: Vec<Row<S>>,
}

impl<S: Scalar> Model for Gens<S> {
    ghost use Rattle.std.specs.Prelude.{length, ◌-◌, ◌≤◌, ◌^◌, vec_len, vec_capacity};
    ghost use Rattle.trop_theory.specs.Vectors.{AreWide};
    ghost use Rattle.trop_row.specs.Lists.{RowList};

    ghost Value = { RowList S };

    ghost view = { λ a. record { n = a.n; rows = a.rows.items; spare = vec_capacity a.rows - vec_len a.rows } };

    ghost invariant = { λ a. (1 ≤ a.n) × (a.n ≤ 64) × (length a.rows.items ≤ 2 ^ 31) × AreWide a.n a.rows.items };
}

impl<S: Scalar> Gens<S> {
    /// The empty list of rows of `n` entries.
    pub fn new(alloc: Global, n: u32) -> Gens<S>
        requires at_least { 1 ≤ n }
        requires at_most { n ≤ 64 }
        ensures width { result.n ≡ n }
        ensures rows { result.rows ≡ [] }
    {
        Gens {
            n,
            rows: Vec::new(alloc),
        }
    }

    /// The list of these rows.
    pub fn from_rows(n: u32, rows: Vec<Row<S>>) -> Gens<S>
        requires at_least { 1 ≤ n }
        requires at_most { n ≤ 64 }
        requires room { length rows.items ≤ 2 ^ 31 }
        requires wide { AreWide n rows.items }
        ensures width { result.n ≡ n }
        ensures rows { result.rows ≡ rows.items }
    {
        Gens { n, rows }
    }

    /// Appends the row. With room to spare it needs no memory.
    pub fn push(&mut self, row: Row<S>) -> Result<(), NoMemory>
        requires wide { length row ≡ self.old.n }
        requires room { length self.old.rows < 2 ^ 31 }
        ensures ok { OnOk result (self.new.rows ≡ self.old.rows ++ row ∷ []) }
        ensures err { OnErr result (self.new.rows ≡ self.old.rows) }
        ensures width { self.new.n ≡ self.old.n }
        ensures succeeds { 1 ≤ self.old.spare → IsOk result }
        ensures spare { self.old.spare ≤ self.new.spare + 1 }
    {
        self.rows.push(row)?;
        Ok(())
    }

    /// Takes the last row off the list; none where the list is empty.
    pub fn pop(&mut self) -> Option<Row<S>>
        ensures rows { self.old.rows ≡ self.new.rows ++ option_to_list result }
        ensures some { IsSome result ↔ (0 < length self.old.rows) }
        ensures width { self.new.n ≡ self.old.n }
        ensures spare { self.old.spare ≤ self.new.spare }
    {
        self.rows.pop()
    }

    /// Makes room for `more` rows beside those that stand.
    pub fn reserve(&mut self, more: u32) -> Result<(), NoMemory>
        ensures spare { OnOk result (more ≤ self.new.spare) }
        ensures rows { self.new.rows ≡ self.old.rows }
        ensures width { self.new.n ≡ self.old.n }
    {
        self.rows.reserve(more as usize)
    }

    /// The number of rows.
    pub fn len(&self) -> u32
        ensures len { result ≡ length self.now.rows }
        ensures room { result ≤ 2 ^ 31 }
    {
        self.rows.len() as u32
    }

    /// The number of entries of each row.
    pub fn n(&self) -> u32
        ensures value { result ≡ self.now.n }
        ensures at_least { 1 ≤ result }
        ensures at_most { result ≤ 64 }
    {
        self.n
    }

    /// The row at place `k`, from 0.
    pub fn get(&self, k: u32) -> &Row<S>
        requires { k < length self.now.rows }
        ensures value { slice_get self.now.rows k ≡ Some result.now }
        ensures wide { length result.now ≡ self.now.n }
    {
        &self.rows[k as usize]
    }

    /// The rows in order.
    pub fn as_slice(&self) -> &[Row<S>]
        ensures rows { result.now ≡ self.now.rows }
        ensures wide { AreWide self.now.n self.now.rows }
        ensures at_least { 1 ≤ self.now.n }
        ensures at_most { self.now.n ≤ 64 }
        ensures room { length self.now.rows ≤ 2 ^ 31 }
    {
        self.rows.as_slice()
    }

    /// The rows by themselves.
    pub fn into_rows(self) -> Vec<Row<S>>
        ensures rows { result.items ≡ self.rows }
        ensures wide { AreWide self.n result.items }
        ensures room { length result.items ≤ 2 ^ 31 }
    {
        self.rows
    }
}
