//! What a command takes of its input.
ghost use Rattle.trop_words.specs.declared.command.Command.{Command};
ghost use Rattle.tplib_cmd.specs.Commands.{reads as command_reads};
ghost use Rattle.tplib_cmd.specs.Streams.{Takes, input_of};

use crate::command::reads;
use std::alloc::Global;
use trop_io::{ReadAllErr, Source, read_all};
use trop_words::Command;

const LONGEST_INPUT: usize = 4_194_304;

// All bytes of the input, where the command reads it; else none, and the input is not touched.
pub(crate) fn take_input<I: Source>(
    alloc: Global,
    command: Command<'_>,
    input: &mut I,
) -> Result<Vec<u8>, ReadAllErr>
    ensures { Takes (command_reads command.entry) (input_of I.left I.faults I.calls input.old)
        (input_of I.left I.faults I.calls input.new) result }
{
    if reads(command) {
        read_all(alloc, input, LONGEST_INPUT)
    } else {
        Ok(Vec::new(alloc))
    }
}
