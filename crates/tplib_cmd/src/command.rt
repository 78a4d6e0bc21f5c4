//! The words of the command line as a command.
ghost use Rattle.std.specs.Prelude.{◌≡◌, map, string_bytes, MatchOption};
ghost use Rattle.trop_words.specs.declared.command.Command.{Command};
ghost use Rattle.tplib_cmd.specs.Commands.{IsCommand, reads};

use trop_words::{Command, read_words};

// The command that the words spell.
pub(crate) fn read_command(words: &[String]) -> Option<Command<'_>>
    ensures { MatchOption result ((command : Command) → IsCommand (map string_bytes words.now) command → ⊥)
        (λ command. IsCommand (map string_bytes words.now) command) }
{
    read_words(words).ok()
}

// Whether the command reads its input.
pub(crate) fn reads(command: Command<'_>) -> bool
    ensures { result ≡ reads command.entry }
{
    !matches!(command, Command::Sample { .. })
}
