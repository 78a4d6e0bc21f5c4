//! Steps of a run, one kind of statement a function.

ghost use Rattle.std.specs.Prelude.{◌≡◌, ◌+◌, ◌<◌, ◌∷◌, ◌++◌, ◌^◌, length, IfOk};
ghost use Rattle.prog_theory.specs.States as states;
ghost use Rattle.prog_theory.specs.States.{changed};
ghost use Rattle.prog_theory.specs.Statements as tree;
ghost use Rattle.prog_theory.specs.Numbering.{counts, numbered};
ghost use Rattle.prog_theory.specs.Steps.{Stack};
ghost use Rattle.prog_theory.specs.Looks as looks;
ghost use Rattle.prog_theory.specs.Fits.{FitsTerm, IsVariable};
ghost use Rattle.prog_theory.specs.Within.{IsNumberWithin};
ghost use Rattle.prog_theory.specs.Chosen.{pick_assume, pick_branch, pick_value, picked};
ghost use Rattle.prog_tree.specs.Stmts.{stmt_of};
ghost use Rattle.prog_tree.specs.Terms.{term_of};
ghost use Rattle.prog_run.specs.Ready.{AreWithin, IsReady, IsReadyCond};
ghost use Rattle.prog_run.specs.Stacks.{stack_of, top_of};
ghost use Rattle.prog_run.specs.Shown.{config};
ghost use Rattle.prog_run.specs.Views.{picked_of};

use crate::NoMemory;
use crate::configs::End;
use crate::looks::{look, value};
use crate::stack::{Rest, Top, push_block, push_top};
use prog_tree::{Block, Cond, Stmt, Term};

/// What the choices make of a step, beside the stack and the state: the choices that are left, or the end.
#[derive(Clone, Copy)]
pub(crate) enum Picked<'a> {
    Ends(End),
    Goes(&'a [i64]),
}

// Gives a variable a number.
#[tactic(auto, using(crate::proofs::Values::changed_at))]
fn put(state: &mut [i64], var: u32, number: i64)
    requires { IsVariable (length state.old) var }
    ensures { state.new ≡ changed state.old var number }
{
    state[var as usize - 1] = number;
}

// A variable takes the value of a term.
fn set(state: &mut [i64], var: u32, term: Term)
    requires variable { IsVariable (length state.old) var }
    requires fits { FitsTerm (length state.old) (term_of term) }
    requires small { IsNumberWithin (2 ^ 31) (term_of term) }
    requires within { AreWithin (2 ^ 62) state.old }
    ensures { state.new ≡ changed state.old var (states.value (term_of term) state.old) }
{
    let number = value(term, state);
    put(state, var, number);
}

// A variable takes a choice.
fn havoc<'c>(state: &mut [i64], var: u32, choices: &'c [i64]) -> Picked<'c>
    requires { IsVariable (length state.old) var }
    ensures { (rest : Stack) → pick_value var choices.now state.old rest ≡ picked_of result rest state.new }
{
    let Some((choice, left)) = choices.split_first() else {
        return Picked::Ends(End::OutOfChoices);
    };
    put(state, var, *choice);
    Picked::Goes(left)
}

// An `assume`.
fn assume<'c>(cond: &Cond, state: &[i64], choices: &'c [i64]) -> Picked<'c>
    requires ready { IsReadyCond (length state.now) cond.now }
    requires within { AreWithin (2 ^ 62) state.now }
    ensures { (rest : Stack) → pick_assume (looks.look cond.now state.now choices.now)
        (config rest state.now) ≡ picked_of result rest state.now }
{
    let Some(seen) = look(cond, state, choices) else {
        return Picked::Ends(End::OutOfChoices);
    };
    if seen.truth {
        Picked::Goes(seen.left)
    } else {
        Picked::Ends(End::AssumeFailed)
    }
}

// An `if`: one of its blocks comes in its place.
fn branch<'a, 'c>(
    stack: &mut Vec<Rest<'a>>,
    number: u32,
    cond: &Cond,
    first: &'a Block,
    second: &'a Block,
    state: &[i64],
    choices: &'c [i64],
) -> Result<Picked<'c>, NoMemory>
    requires ready { IsReadyCond (length state.now) cond.now }
    requires within { AreWithin (2 ^ 62) state.now }
    requires numbers { number + 1 + counts first.now + counts second.now < 2 ^ 32 }
    ensures { IfOk result (λ p. pick_branch (looks.look cond.now state.now choices.now)
        (config (numbered (number + 1) first.now ++ stack_of stack.old.items) state.now)
        (config (numbered (number + 1 + counts first.now) second.now ++ stack_of stack.old.items) state.now) ≡
        picked_of p (stack_of stack.new.items) state.now) }
{
    let Some(seen) = look(cond, state, choices) else {
        return Ok(Picked::Ends(End::OutOfChoices));
    };
    if seen.truth {
        push_block(stack, first, number + 1)?;
        Ok(Picked::Goes(seen.left))
    } else {
        push_block(stack, second, number + 1 + first.count())?;
        Ok(Picked::Goes(seen.left))
    }
}

// A `while`: it stays, with its body above it, or it is over.
fn repeat<'a, 'c>(
    stack: &mut Vec<Rest<'a>>,
    top: Top<'a>,
    cond: &Cond,
    body: &'a Block,
    state: &[i64],
    choices: &'c [i64],
) -> Result<Picked<'c>, NoMemory>
    requires ready { IsReadyCond (length state.now) cond.now }
    requires within { AreWithin (2 ^ 62) state.now }
    requires numbers { top.number + 1 < 2 ^ 32 }
    ensures { IfOk result (λ p. pick_branch (looks.look cond.now state.now choices.now)
        (config (numbered (top.entry.number + 1) body.now ++ top_of top.entry ∷ stack_of stack.old.items) state.now)
        (config (stack_of stack.old.items) state.now) ≡ picked_of p (stack_of stack.new.items) state.now) }
{
    let Some(seen) = look(cond, state, choices) else {
        return Ok(Picked::Ends(End::OutOfChoices));
    };
    if seen.truth {
        push_top(stack, top)?;
        push_block(stack, body, top.number + 1)?;
        Ok(Picked::Goes(seen.left))
    } else {
        Ok(Picked::Goes(seen.left))
    }
}

/// The step of a statement that was taken off the stack.
pub(crate) fn step<'a, 'c>(
    top: Top<'a>,
    stack: &mut Vec<Rest<'a>>,
    state: &mut [i64],
    choices: &'c [i64],
) -> Result<Picked<'c>, NoMemory>
    requires ready { IsReady (length state.old) (top_of top) }
    requires within { AreWithin (2 ^ 62) state.old }
    ensures { IfOk result (λ p. picked top.entry.number (stmt_of top.entry.stmt.now)
        (stack_of stack.old.items) state.old choices.now ≡ picked_of p (stack_of stack.new.items) state.new) }
{
    match top.stmt {
        Stmt::Set { var, value } => {
            set(state, *var, *value);
            Ok(Picked::Goes(choices))
        }
        Stmt::Havoc { var } => Ok(havoc(state, *var, choices)),
        Stmt::Assume(cond) => Ok(assume(cond, state, choices)),
        Stmt::Assert(_) | Stmt::Skip => Ok(Picked::Goes(choices)),
        Stmt::If(cond, first, second) => {
            branch(stack, top.number, cond, first, second, state, choices)
        }
        Stmt::While(cond, body) => repeat(stack, top, cond, body, state, choices),
    }
}
