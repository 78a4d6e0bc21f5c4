//! Programs.

ghost use Rattle.std.specs.Prelude.{◌≡◌, length};
ghost use Rattle.prog_theory.specs.Limits.{program_limits};
ghost use Rattle.prog_theory.specs.Within.{IsWithin};
ghost use Rattle.prog_tree.specs.Programs.{IsProgram};

use crate::block::Block;
use std::marker::Model;
use trop_text::Names;

/// A program: the names of its variables and its statements.
///
/// It keeps that its terms name coordinate 0 or one of its variables, that what it changes is one of its variables, that
/// each side of a claim has a term, and just one where no word stands before it; and that it has at most 63 variables,
/// 400 statements and 1,200 atoms (comparisons and `?`), numbers of size at most 2^31, and a printed text in which at
/// most 64 of the signs `{`, `!` and `(` of conditions stand open at once.
#[derive(Drop)]
pub struct Program {
    names: Names,
    body: Block,
}

impl Model for Program {
    ghost use Rattle.prog_theory.specs.Named.{Named};
    ghost use Rattle.prog_tree.specs.Programs.{IsProgram};

    ghost Value = { Named };

    ghost use Rattle.prog_tree.specs.NamedCodes.{coded_named};

    ghost coded = { coded_named };

    ghost view = { λ p. record { names = p.names; body = p.body } };

    ghost invariant = { λ p. IsProgram (record { names = p.names; body = p.body }) };
}

impl Program {
    /// The program of these names and statements.
    pub fn new(names: Names, body: Block) -> Program
        requires { IsWithin program_limits (record { names = names; body = body }) }
        ensures { result ≡ record { names = names; body = body } }
    {
        Program { names, body }
    }

    /// The names of the variables.
    pub fn names(&self) -> &Names
        ensures value { result.now ≡ self.now.names }
        ensures keeps { IsProgram self.now }
    {
        &self.names
    }

    /// The statements.
    pub fn body(&self) -> &Block
        ensures value { result.now ≡ self.now.body }
        ensures keeps { IsProgram self.now }
    {
        &self.body
    }

    /// The number of variables.
    pub fn vars(&self) -> u32
        ensures value { result ≡ length self.now.names }
        ensures keeps { IsProgram self.now }
    {
        self.names.len()
    }
}
