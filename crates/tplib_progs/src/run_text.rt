//! The lines of a run: one for each of its configurations, and one for its end.
ghost use Rattle.std.specs.Prelude.{◌≡◌, ◌++◌, map, OnOk, IfOk};
ghost use Rattle.prog_run.specs.Views.{config_of, end_of};
ghost use Rattle.tplib_progs.specs.Lines.{point_text, config_line, config_lines, end_line, run_text as text_of};

use crate::numbers::push_numbers;
use itoa::Buffer;
use prog_run::{Config, End, Traced};
use std::alloc::{AllocError, Global};

/// The lines of a run.
pub(crate) fn run_text(alloc: Global, run: &Traced) -> Result<Vec<u8>, AllocError>
    ensures { IfOk result (λ text. text.items ≡ text_of run.now.configs (end_of run.now.ended)) }
{
    let mut text = Vec::new(alloc);
    push_configs(&mut text, run.configs.as_slice())?;
    text.extend_from_slice(end_words(run.ended))?;
    Ok(text)
}

// The line of each configuration.
fn push_configs(text: &mut Vec<u8>, configs: &[Config]) -> Result<(), AllocError>
    ensures { OnOk result (text.new.items ≡ text.old.items ++ config_lines (map config_of configs.now)) }
{
    for config in configs {
        push_config(text, config)?;
    }
    Ok(())
}

// The line of a configuration.
fn push_config(text: &mut Vec<u8>, config: &Config) -> Result<(), AllocError>
    ensures { OnOk result (text.new.items ≡ text.old.items ++ config_line (config_of config.now)) }
{
    text.extend_from_slice(b"at ")?;
    push_point(text, config.point)?;
    text.push(b' ')?;
    push_numbers(text, config.state.as_slice())?;
    text.push(b'\n')?;
    Ok(())
}

// The number of the statement that is next, or the word for the end of the program.
fn push_point(text: &mut Vec<u8>, point: Option<u32>) -> Result<(), AllocError>
    ensures { OnOk result (text.new.items ≡ text.old.items ++ point_text point) }
{
    match point {
        None => text.extend_from_slice(b"exit"),
        Some(number) => {
            let mut buffer = Buffer::new();
            text.extend_from_slice(buffer.format(number).as_bytes())
        }
    }
}

// The line of the end.
fn end_words(ended: End) -> &'static [u8]
    ensures { result.now ≡ end_line (end_of ended) }
{
    match ended {
        End::Finished => b"end finished\n",
        End::AssumeFailed => b"end assume-failed\n",
        End::OutOfChoices => b"end out-of-choices\n",
        End::TurnsSpent => b"end turns-spent\n",
    }
}
