//! The table of commands: which words spell which.
ghost use Rattle.std.specs.Prelude.{◌≡◌, ◌∷◌, [], List, ℕ, map, string_bytes, codes, IfOk, OnErr, MatchOption, ◌≤◌, ◌≢◌};
ghost use Rattle.trop_words.specs.declared.command.Command.{Command};
ghost use Rattle.trop_words.specs.Words.{IsSpelled, IsReading, mode_word};

use crate::names::is_name;
use crate::numbers::{after_key, key_number};
use crate::{BadWords, Command, Mode};

/// The command that the words spell. It takes no memory.
///
/// Errors: [`BadWords`] exactly where they spell none.
pub fn read_words(words: &[String]) -> Result<Command<'_>, BadWords>
    ensures spelled { IfOk result (λ command. IsSpelled (map string_bytes words.now) command) }
    ensures bad { OnErr result ((command : Command) → IsSpelled (map string_bytes words.now) command → ⊥) }
{
    let read = match words {
        [word] => one(word.as_str()),
        [first, second] => two(first.as_str(), second.as_str()),
        [first, second, third] => three(first.as_str(), second.as_str(), third.as_str()),
        [first, second, third, fourth] => four(
            first.as_str(),
            second.as_str(),
            third.as_str(),
            fourth.as_str(),
        ),
        _ => None,
    };
    read.ok_or(BadWords)
}

fn one<'a>(word: &'a str) -> Option<Command<'a>>
    ensures { IsReading (word.now ∷ []) result }
{
    match word {
        "reduce" => Some(Command::Reduce),
        "ext" => Some(Command::Ext),
        "int" => Some(Command::Int { lean: false }),
        "tangent" => Some(Command::Tangent),
        "check" => Some(Command::Check),
        _ => None,
    }
}

fn two<'a>(first: &'a str, second: &'a str) -> Option<Command<'a>>
    ensures { IsReading (first.now ∷ second.now ∷ []) result }
{
    match first {
        "int" if second == "lean=on" => Some(Command::Int { lean: true }),
        "op" => operation(second),
        "trace" => {
            let turns = key_number(second, "turns=", 0, 10_000)?;
            Some(Command::Trace { turns })
        }
        "analyze" => {
            let mode = mode_of(second)?;
            Some(Command::Analyze {
                mode,
                delay: 2,
                narrow: 0,
            })
        }
        _ => None,
    }
}

fn operation<'a>(name: &'a str) -> Option<Command<'a>>
    ensures { IsReading (codes "op" ∷ name.now ∷ []) result }
{
    match name {
        "include" => Some(Command::Include),
        "equal" => Some(Command::Equal),
        "join" => Some(Command::Join),
        "meet" => Some(Command::Meet),
        _ => None,
    }
}

fn three<'a>(first: &'a str, second: &'a str, third: &'a str) -> Option<Command<'a>>
    ensures { IsReading (first.now ∷ second.now ∷ third.now ∷ []) result }
{
    match first {
        "op" if second == "forget" => {
            let var = after_key(third, "var=")?;
            if is_name(var) {
                Some(Command::Forget { var })
            } else {
                None
            }
        }
        "analyze" => {
            let mode = mode_of(second)?;
            if let Some(delay) = key_number(third, "delay=", 0, 1_000) {
                return Some(Command::Analyze {
                    mode,
                    delay,
                    narrow: 0,
                });
            }
            let narrow = key_number(third, "narrow=", 0, 100)?;
            Some(Command::Analyze {
                mode,
                delay: 2,
                narrow,
            })
        }
        _ => None,
    }
}

fn four<'a>(first: &'a str, second: &'a str, third: &'a str, fourth: &'a str) -> Option<Command<'a>>
    ensures { IsReading (first.now ∷ second.now ∷ third.now ∷ fourth.now ∷ []) result }
{
    match first {
        "analyze" => {
            let mode = mode_of(second)?;
            let delay = key_number(third, "delay=", 0, 1_000)?;
            let narrow = key_number(fourth, "narrow=", 0, 100)?;
            Some(Command::Analyze {
                mode,
                delay,
                narrow,
            })
        }
        "sample" => {
            let seed = key_number(second, "seed=", 0, 2_147_483_647)?;
            let vars = key_number(third, "vars=", 1, 31)?;
            let rows = key_number(fourth, "rows=", 0, 1_024)?;
            Some(Command::Sample { seed, vars, rows })
        }
        _ => None,
    }
}

fn mode_of(word: &str) -> Option<Mode>
    ensures { MatchOption result ((mode : _) → word.now ≢ mode_word mode) (λ mode. word.now ≡ mode_word mode) }
{
    match word {
        "mode=max" => Some(Mode::Max),
        "mode=min" => Some(Mode::Min),
        "mode=mixed" => Some(Mode::Mixed),
        "mode=zone" => Some(Mode::Zone),
        _ => None,
    }
}
