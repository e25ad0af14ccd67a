//! The command line of the program, as `clap` reads it.

ghost use Rattle.std.specs.Prelude.{◌≡◌, false};
ghost use Rattle.clap.specs.Words.{rule_of};
ghost use Rattle.dotenvy_export_command.specs.Words.{target_rule};

use clap::{Arg, Command};
use dotenvy_words::arguments::{files, flag, many, named};
use dotenvy_words::command_line::CommandLine;
use std::alloc::{AllocError, Global};

/// The command line of the program.
pub(crate) struct Exporter;

impl CommandLine for Exporter {
    ghost use Rattle.dotenvy_export_command.specs.Words.{exporter};
    ghost use Rattle.dotenvy_export_command.specs.Described.{is_exporter_free, is_exporter_simple, none_refused};

    ghost described = { exporter };

    ghost simple = { is_exporter_simple };

    ghost free = { is_exporter_free };

    ghost none_refused = { none_refused };

    fn command<'a>(global: Global) -> Result<Command<'a>, AllocError> {
        named(global, "dotenvy_export")
            .arg(flag(global, "next"))?
            .arg(flag(global, "override"))?
            .arg(flag(global, "ignore-environment"))?
            .arg(flag(global, "skip-reserved"))?
            .arg(many(global, "optional"))?
            .arg(target(global))?
            .arg(files(global))
    }
}

// The target, which is the first word that is neither an option nor the value of one.
fn target<'a>(global: Global) -> Arg<'a>
    ensures rule { rule_of result ≡ target_rule }
    ensures local { result.global ≡ false }
{
    Arg::new(global, "target")
}
