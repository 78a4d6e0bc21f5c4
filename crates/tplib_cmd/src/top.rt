//! A run: the words, the input, the answer, the output, and the line on standard error.
ghost use Rattle.std.specs.Prelude.{◌≡◌, List, ℕ, map, string_bytes};
ghost use Rattle.trop_io.specs.Faults.{Rose};
ghost use Rattle.trop_words.specs.declared.command.Command.{Command};
ghost use Rattle.tplib_cmd.specs.Commands.{IsInRange};
ghost use Rattle.tplib_cmd.specs.Streams.{IsReported, input_of, output_of};
ghost use Rattle.tplib_cmd.specs.Ends.{Ends, EndsWith, IsInOrder, IsAnswer, run_of};
ghost use Rattle.tplib_cmd.specs.Status.{line_of};

use crate::Status;
use crate::answer::answer;
use crate::command::read_command;
use crate::input::take_input;
use crate::report::report;
use std::alloc::Global;
use tplib_reply::Refusal;
use trop_io::{ReadAllErr, Sink, Source, write_all};
use trop_words::Command;

/// Runs the command that the words spell: reads the input to its end, writes the answer to `out` once it stands whole,
/// and writes one line to `err` where there is none. A failing `err` changes nothing else. A command that reads nothing
/// does not touch the input.
///
/// The status names the cause; see [`Status`].
pub fn run<I: Source, O: Sink, E: Sink>(
    alloc: Global,
    words: &[String],
    input: &mut I,
    out: &mut O,
    err: &mut E,
) -> Status
    ensures ends { EndsWith (map string_bytes words.now)
        (run_of (input_of I.left I.faults I.calls) (output_of O.bytes O.faults) input.old input.new out.old out.new)
        result }
    // Where everything is in order there is an answer, or want of memory.
    ensures complete { IsInOrder (map string_bytes words.now)
        (run_of (input_of I.left I.faults I.calls) (output_of O.bytes O.faults) input.old input.new out.old out.new) →
        IsAnswer result }
    ensures reported { IsReported (output_of E.bytes E.faults err.old) (output_of E.bytes E.faults err.new)
        (line_of result) }
{
    let status = run_words(alloc, words, input, out);
    report(status, err);
    status
}

// The same without the line.
fn run_words<I: Source, O: Sink>(
    alloc: Global,
    words: &[String],
    input: &mut I,
    out: &mut O,
) -> Status
    ensures ends { EndsWith (map string_bytes words.now)
        (run_of (input_of I.left I.faults I.calls) (output_of O.bytes O.faults) input.old input.new out.old out.new)
        result }
    ensures complete { IsInOrder (map string_bytes words.now)
        (run_of (input_of I.left I.faults I.calls) (output_of O.bytes O.faults) input.old input.new out.old out.new) →
        IsAnswer result }
{
    match read_command(words) {
        Some(command) => run_command(alloc, command, input, out),
        None => Status::BadWords,
    }
}

fn run_command<I: Source, O: Sink>(
    alloc: Global,
    command: Command<'_>,
    input: &mut I,
    out: &mut O,
) -> Status
    requires range { IsInRange command }
    ensures ends { Ends command.entry (run_of (input_of I.left I.faults I.calls)
        (output_of O.bytes O.faults) input.old input.new out.old out.new) result }
{
    let bytes = match take_input(alloc, command, input) {
        Ok(bytes) => bytes,
        Err(ReadAllErr::ReadFault) => return Status::ReadFault,
        Err(ReadAllErr::TooLong) => return Status::TooLong,
        Err(ReadAllErr::NoMemory) => return Status::NoMemory,
    };
    let reply = match answer(alloc, command, &bytes) {
        Ok(reply) => reply,
        Err(Refusal::Text(fault)) => return Status::Text(fault),
        Err(Refusal::Limit(stop)) => return Status::Limit(stop),
        Err(Refusal::Range(stop)) => return Status::Range(stop),
        Err(Refusal::NoMemory) => return Status::NoMemory,
    };
    match write_all(out, &reply.text) {
        Ok(()) if reply.yes => Status::Done,
        Ok(()) => Status::No,
        Err(_) => Status::WriteFault,
    }
}
