//! What is still to come of a run.

ghost use Rattle.std.specs.Prelude.{◌≡◌, ◌∷◌, ◌++◌, [], OnOk, IfOk, MatchOption};
ghost use Rattle.prog_theory.specs.Numbering.{numbered};
ghost use Rattle.prog_tree.specs.Stmts.{block_of};
ghost use Rattle.prog_run.specs.Ready.{AreNumbered};
ghost use Rattle.prog_run.specs.Stacks.{stack_of, top_of, GivesTop};

use crate::NoMemory;
use prog_tree::{Block, Stmt};

/// The statements of a block that are still to come; the first has the number.
#[derive(Clone, Copy, Drop)]
pub(crate) struct Rest<'a> {
    pub(crate) number: u32,
    pub(crate) stmts: &'a [Stmt],
}

/// The statement that is next.
#[derive(Clone, Copy, Drop)]
pub(crate) struct Top<'a> {
    pub(crate) number: u32,
    pub(crate) stmt: &'a Stmt,
}

// Puts statements on top of the stack.
#[tactic(auto, using(crate::proofs::Stacks::stack_of_push))]
fn push_rest<'a>(stack: &mut Vec<Rest<'a>>, stmts: &'a [Stmt], number: u32) -> Result<(), NoMemory>
    ensures { OnOk result (stack_of stack.new.items ≡
        numbered number (block_of stmts.now) ++ stack_of stack.old.items) }
{
    stack.push(Rest { number, stmts })?;
    Ok(())
}

/// Puts a block on top of the stack, whose first statement has the number.
pub(crate) fn push_block<'a>(
    stack: &mut Vec<Rest<'a>>,
    block: &'a Block,
    number: u32,
) -> Result<(), NoMemory>
    ensures { OnOk result (stack_of stack.new.items ≡ numbered number block.now ++ stack_of stack.old.items) }
{
    push_rest(stack, block.as_slice(), number)
}

/// Puts the statement back on top of the stack.
pub(crate) fn push_top<'a>(stack: &mut Vec<Rest<'a>>, top: Top<'a>) -> Result<(), NoMemory>
    ensures { OnOk result (stack_of stack.new.items ≡ top_of top.entry ∷ stack_of stack.old.items) }
{
    push_rest(stack, std::slice::from_ref(top.stmt), top.number)
}

/// Takes the statement on top off the stack; none where the stack is empty.
pub(crate) fn pop_top<'a>(stack: &mut Vec<Rest<'a>>) -> Result<Option<Top<'a>>, NoMemory>
    requires { AreNumbered (stack_of stack.old.items) }
    ensures { IfOk result (GivesTop (stack_of stack.old.items) (stack_of stack.new.items)) }
{
    'rests: while let Some(rest) = stack.pop() {
        if let Some((stmt, others)) = rest.stmts.split_first() {
            push_rest(stack, others, rest.number + stmt.count())?;
            return Ok(Some(Top {
                number: rest.number,
                stmt,
            }));
        }
    }
    Ok(None)
}
