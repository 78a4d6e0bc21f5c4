//! Statements and blocks.

ghost use Rattle.std.specs.Prelude.{◌≡◌, ◌<◌, ◌^◌, Some, OnOk, OnErr, length, slice_get};
ghost use Rattle.prog_theory.specs.Statements as tree;
ghost use Rattle.prog_theory.specs.Blocks.{statements, and_then};
ghost use Rattle.prog_theory.specs.Numbering.{count, counts};
ghost use Rattle.prog_tree.specs.Stmts.{stmt_of, block_of};

use crate::NoMemory;
use crate::claim::Claim;
use crate::cond::Cond;
use crate::term::Term;
use std::alloc::Global;
use std::marker::Model;

/// A list of statements, which contracts see as a block of the theory.
#[cycle(stmt)]
#[derive(Drop)]
pub struct Block {
    /// The statements, in the order in which a run takes them.
    pub stmts: Vec<Stmt>,
}

/// A statement. A variable is a coordinate from 1.
#[cycle(stmt)]
#[derive(Drop)]
pub enum Stmt {
    /// The variable takes the value of the term.
    Set { var: u32, value: Term },
    /// The variable takes any whole number.
    Havoc { var: u32 },
    /// The run goes on only where the condition can be true.
    Assume(Cond),
    /// A claim, which a run passes over.
    Assert(Claim),
    /// The first block where the condition can be true, the second where it can be false.
    If(Cond, Block, Block),
    /// The block, and this statement again, where the condition can be true.
    While(Cond, Block),
    /// Nothing.
    Skip,
}

impl Model for Block {
    ghost use Rattle.prog_theory.specs.Statements as tree;

    ghost Value = { tree.Block };

    ghost use Rattle.prog_tree.specs.BlockCodes.{coded_block};

    ghost coded = { coded_block };

    ghost use Rattle.prog_tree.specs.Stmts.{block_of, block_size};

    ghost view = { λ a. block_of a.stmts.items };

    ghost size = { block_size };

    ghost use Rattle.std.proofs.Common.{arith};
    ghost use Rattle.prog_tree.specs.Falls.{block_falls};

    ghost size_decreases = { λ a h. Prim.omega (arith, block_falls a.stmts.items) };
}

impl Block {
    /// The block without statements.
    pub fn new(alloc: Global) -> Block
        ensures { result ≡ tree.Empty }
    {
        Block {
            stmts: Vec::new(alloc),
        }
    }

    /// Appends a statement. Want of memory leaves the block as it was.
    #[tactic(auto, using(crate::proofs::Lists::block_of_push))]
    pub fn push(&mut self, item: Stmt) -> Result<(), NoMemory>
        ensures added { OnOk result (self.new ≡ and_then self.old (stmt_of item)) }
        ensures unchanged { OnErr result (self.new ≡ self.old) }
    {
        self.stmts.push(item)?;
        Ok(())
    }

    /// The number of statements of the list itself.
    #[tactic(auto, using(crate::proofs::Lists::statements_length))]
    pub fn len(&self) -> usize
        ensures { result ≡ length (statements self.now) }
    {
        self.stmts.len()
    }

    /// The statement at a place of the list, from 0.
    #[tactic(auto, using(crate::proofs::Lists::statements_length, crate::proofs::Lists::statements_get))]
    pub fn get(&self, k: usize) -> &Stmt
        requires { k < length (statements self.now) }
        ensures { slice_get (statements self.now) k ≡ Some (stmt_of result.now) }
    {
        &self.stmts[k]
    }

    /// The statements in order.
    pub fn as_slice(&self) -> &[Stmt]
        ensures { block_of result.now ≡ self.now }
    {
        self.stmts.as_slice()
    }

    /// The number of statements at all depths.
    #[cycle(count)]
    pub fn count(&self) -> u32
        requires { counts self.now < 2 ^ 32 }
        ensures { result ≡ counts self.now }
    {
        let mut total = 0;
        for st in &self.stmts {
            total += st.count();
        }
        total
    }
}

impl Stmt {
    /// The number of statements at all depths, with this one.
    #[cycle(count)]
    pub fn count(&self) -> u32
        requires { count (stmt_of self.now) < 2 ^ 32 }
        ensures { result ≡ count (stmt_of self.now) }
    {
        match self {
            Stmt::If(_, a, b) => 1 + a.count() + b.count(),
            Stmt::While(_, a) => 1 + a.count(),
            _ => 1,
        }
    }
}
