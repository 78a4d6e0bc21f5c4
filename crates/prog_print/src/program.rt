//! Programs.
ghost use Rattle.std.specs.Prelude.{◌≡◌, ◌++◌, OnOk, IfOk};
ghost use Rattle.prog_theory.specs.Limits.{program_limits};
ghost use Rattle.prog_texts.specs.AssertRule.{AssertRule};
ghost use Rattle.prog_texts.specs.Words.{program_pieces};
ghost use Rattle.prog_texts.specs.Programs.{IsWholeProgram};
ghost use Rattle.prog_texts.specs.Suits.{SuitsBlock};
ghost use Rattle.prog_texts.specs.Printed.{printed};
ghost use Rattle.prog_print.specs.Texts.{names_text};

use crate::NoMemory;
use crate::statements::push_block;
use prog_tree::Program;
use std::alloc::Global;
use trop_text::Names;

// Each name behind a blank.
fn push_names(text: &mut Vec<u8>, names: &Names) -> Result<(), NoMemory>
    ensures { OnOk result (text.new.items ≡ text.old.items ++ names_text names.now) }
{
    for place in 0..names.len() {
        text.push(b' ')?;
        text.extend_from_slice(names.name(place).as_bytes())?;
    }
    Ok(())
}

/// Appends the program as it is printed.
pub fn push_program(text: &mut Vec<u8>, program: &Program) -> Result<(), NoMemory>
    ensures { OnOk result (text.new.items ≡ text.old.items ++ printed program.now) }
{
    text.extend_from_slice(b"vars")?;
    push_names(text, program.names())?;
    text.extend_from_slice(b";\n")?;
    push_block(text, program.names(), program.body(), 0)
}

/// The program as it is printed. It is read back to the same program, under each rule that its asserts suit.
pub fn print_program(alloc: Global, program: &Program) -> Result<Vec<u8>, NoMemory>
    ensures text { IfOk result (λ text. text.items ≡ printed program.now) }
    ensures read_back { (rule : AssertRule) → SuitsBlock rule program.now.body → IfOk result
        (λ text. IsWholeProgram program_limits rule (program_pieces text.items) program.now) }
{
    prove!(program.vars() <= 63);
    let mut text = Vec::new(alloc);
    push_program(&mut text, program)?;
    Ok(text)
}
