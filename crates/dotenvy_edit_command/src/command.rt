//! The command line of the program, as `clap` reads it.

ghost use Rattle.std.specs.Prelude.{◌≡◌, false};
ghost use Rattle.clap.specs.Words.{rule_of};
ghost use Rattle.dotenvy_edit_command.specs.Words.{command_rule, quiet_rule};

use clap::{Arg, Command};
use dotenvy_words::arguments::{files, flag, named};
use dotenvy_words::command_line::CommandLine;
use std::alloc::{AllocError, Global};

/// The command line of the program.
pub(crate) struct Editor;

impl CommandLine for Editor {
    ghost use Rattle.dotenvy_edit_command.specs.Words.{editor};
    ghost use Rattle.dotenvy_edit_command.specs.Described.{is_editor_free, is_editor_simple, none_refused};

    ghost described = { editor };

    ghost simple = { is_editor_simple };

    ghost free = { is_editor_free };

    ghost none_refused = { none_refused };

    fn command<'a>(global: Global) -> Result<Command<'a>, AllocError> {
        named(global, "dotenvy_edit")
            .arg(flag(global, "next"))?
            .arg(flag(global, "portable"))?
            .arg(flag(global, "create"))?
            .arg(flag(global, "dry-run"))?
            .arg(flag(global, "exact"))?
            .arg(quiet(global))?
            .arg(command(global))?
            .arg(files(global))
    }
}

// The option that has a short name.
fn quiet<'a>(global: Global) -> Arg<'a>
    ensures rule { rule_of result ≡ quiet_rule }
    ensures local { result.global ≡ false }
{
    flag(global, "quiet").short('q')
}

// The command, which is the first word that is no option. The words after it are its own.
fn command<'a>(global: Global) -> Arg<'a>
    ensures rule { rule_of result ≡ command_rule }
    ensures local { result.global ≡ false }
{
    Arg::new(global, "command")
}
