//! Runs of programs.

ghost use Rattle.std.specs.Prelude.{◌≡◌, ◌≤◌, ◌∷◌, ◌++◌, ◌^◌, [], map, length, OnOk, IfOk};
ghost use Rattle.prog_theory.specs.Named.{nameless};
ghost use Rattle.prog_run.specs.Shown.{config, shown as shown_of};
ghost use Rattle.prog_run.specs.Views.{end_of, picked_of};
ghost use Rattle.prog_run.specs.Ready.{AreWithin, AreReady, AreNumbered};
ghost use Rattle.prog_run.specs.Stacks.{stack_of, GivesTop};
ghost use Rattle.prog_run.specs.Traces.{run_of, pick, end_without_turns, IsTrace, AreVisits};

use crate::NoMemory;
use crate::configs::{Config, Configs, End, Traced};
use crate::stack::{Rest, Top, pop_top, push_block};
use crate::steps::{Picked, step};
use prog_tree::{Numbers, Program};
use std::alloc::Global;

// A configuration at a point.
fn config_at(alloc: Global, point: Option<u32>, state: &[i64]) -> Result<Config, NoMemory>
    ensures { IfOk result (λ c. (c.point ≡ point) × (c.state ≡ state.now)) }
{
    let items = Vec::from_slice(alloc, state)?;
    Ok(Config {
        point,
        state: Numbers::from_vec(items),
    })
}

// Takes the statement on top off the stack, and writes the configuration down in which it stood there.
fn next_config<'a>(
    alloc: Global,
    stack: &mut Vec<Rest<'a>>,
    state: &[i64],
    configs: &mut Configs,
) -> Result<Option<Top<'a>>, NoMemory>
    requires { AreNumbered (stack_of stack.old.items) }
    ensures top { IfOk result (GivesTop (stack_of stack.old.items) (stack_of stack.new.items)) }
    ensures shown { OnOk result (configs.new ≡ configs.old
        ++ shown_of (config (stack_of stack.old.items) state.now) ∷ []) }
{
    let Some(top) = pop_top(stack)? else {
        configs.push(config_at(alloc, None, state)?)?;
        return Ok(None);
    };
    configs.push(config_at(alloc, Some(top.number), state)?)?;
    Ok(Some(top))
}

// A turn of the run: the configuration is written down, and the step of the statement on top is taken.
fn turn<'a, 'c>(
    alloc: Global,
    stack: &mut Vec<Rest<'a>>,
    state: &mut [i64],
    choices: &'c [i64],
    configs: &mut Configs,
) -> Result<Picked<'c>, NoMemory>
    requires ready { AreReady (length state.old) (stack_of stack.old.items) }
    requires within { AreWithin (2 ^ 62) state.old }
    ensures shown { OnOk result (configs.new ≡ configs.old
        ++ shown_of (config (stack_of stack.old.items) state.old) ∷ []) }
    ensures picked { IfOk result (λ p. pick (stack_of stack.old.items) state.old choices.now ≡ picked_of p
        (stack_of stack.new.items) state.new) }
{
    let Some(top) = next_config(alloc, stack, state, configs)? else {
        return Ok(Picked::Ends(End::Finished));
    };
    step(top, stack, state, choices)
}

// The end of a run all of whose turns are spent.
fn last_turn<'a>(
    alloc: Global,
    stack: &mut Vec<Rest<'a>>,
    state: &[i64],
    configs: &mut Configs,
) -> Result<End, NoMemory>
    requires { AreNumbered (stack_of stack.old.items) }
    ensures shown { OnOk result (configs.new ≡ configs.old
        ++ shown_of (config (stack_of stack.old.items) state.now) ∷ []) }
    ensures ended { IfOk result (λ e. end_of e ≡ end_without_turns (stack_of stack.old.items)) }
{
    match next_config(alloc, stack, state, configs)? {
        None => Ok(End::Finished),
        Some(_) => Ok(End::TurnsSpent),
    }
}

/// The run of a program from a state, with at most so many steps. A `havoc` takes the next choice as its value, and a
/// `?` that is looked at takes one too, 0 for false and any other number for true; `&&` and `||` look at their right
/// side only where the left one does not decide.
///
/// The start has one number for each variable, in the order of the declaration.
pub fn trace(
    alloc: Global,
    program: &Program,
    start: &[i64],
    choices: &[i64],
    turns: u32,
) -> Result<Traced, NoMemory>
    requires width { length start.now ≡ length program.now.names }
    requires start_small { AreWithin (2 ^ 40) start.now }
    requires choices_small { AreWithin (2 ^ 40) choices.now }
    requires few_turns { turns ≤ 10000 }
    // The configurations and the end are those of the chosen run.
    ensures configs { IfOk result (λ t. t.configs ≡ map shown_of
        (run_of program.now start.now choices.now turns).configs) }
    ensures ended { IfOk result (λ t. end_of t.ended ≡ (run_of program.now start.now choices.now turns).ended) }
    // Each configuration follows the last by a step, and the end has its cause at the last one.
    ensures run { IfOk result (λ t.
        IsTrace (nameless program.now) start.now choices.now turns t.configs (end_of t.ended)) }
    // What is shown is visited.
    ensures visits { IfOk result (λ t. AreVisits (nameless program.now) t.configs) }
{
    let mut stack = Vec::new(alloc);
    push_block(&mut stack, program.body(), 0)?;
    let mut state = Vec::from_slice(alloc, start)?;
    let mut left = choices;
    let mut configs = Configs::new(alloc);
    'turns: for _ in 0..turns {
        match turn(alloc, &mut stack, &mut state, left, &mut configs)? {
            Picked::Ends(ended) => return Ok(Traced { configs, ended }),
            Picked::Goes(rest) => left = rest,
        }
    }
    let ended = last_turn(alloc, &mut stack, &state, &mut configs)?;
    Ok(Traced { configs, ended })
}
