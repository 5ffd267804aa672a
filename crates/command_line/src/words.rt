//! The words as `clap` reads them.

ghost use Rattle.std.specs.Prelude.{◌≡◌, IfOk, map, string_bytes};
ghost use Rattle.clap.specs.Words.{app_of};
ghost use Rattle.command_line.specs.Program.{trusty_app};
ghost use Rattle.command_line.specs.Commands.{MakesFew, command_in};

use crate::command::{Command, judged};
use clap::error::ErrorKind;
use clap::{Arg, ArgAction};
use kernel_values::NoMemory;
use std::alloc::Global;

// The option `form` and words, with no help and no version.
fn program<'a>(alloc: Global) -> Result<clap::Command<'a>, NoMemory>
    ensures { IfOk result (λ program. app_of program ≡ trusty_app) }
{
    let form = Arg::new(alloc, "form").long("form").action(ArgAction::Set);
    let words = Arg::new(alloc, "words").action(ArgAction::Append);
    let program = clap::Command::new(alloc, "trusty")
        .no_binary_name(true)
        .disable_help_flag(true)
        .disable_version_flag(true)
        .arg(form)?
        .arg(words)?;
    Ok(program)
}

/// The command that the words after the program's name are; `None` where they are none.
///
/// Before a word `--`, `--form` takes the next word as the form, whatever that word is, and `--form=V`
/// gives it too; it is given at most once. Every other word there that begins with `-` and is longer than
/// one byte makes the words no command. What is left is one word, the command's name, or the three of
/// `gen SEED COUNT`. `check` takes no form.
pub fn command_of(alloc: Global, words: &[String]) -> Result<Option<Command>, NoMemory>
    ensures exact { IfOk result (λ command. command ≡ command_in (map string_bytes words.now)) }
    ensures few { IfOk result (λ command. MakesFew command) }
{
    match program(alloc)?.try_get_matches_from(words) {
        Ok(matches) => Ok(judged(matches.get_str("form"), matches.get_strs("words"))),
        Err(fault) => match fault.kind() {
            ErrorKind::OutOfMemory => Err(NoMemory),
            _ => Ok(None),
        },
    }
}
