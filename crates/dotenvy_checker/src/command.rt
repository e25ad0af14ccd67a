//! The command line of the program, as `clap` reads it.

ghost use Rattle.std.specs.Prelude.{◌≡◌, false};
ghost use Rattle.clap.specs.Words.{rule_of};
ghost use Rattle.dotenvy_checker.specs.Words.{format_rule, quiet_rule};

use clap::{Arg, Command};
use dotenvy_words::arguments::{files, flag, many, named, one};
use dotenvy_words::command_line::CommandLine;
use std::alloc::{AllocError, Global};

/// The command line of the program.
pub(crate) struct Checker;

impl CommandLine for Checker {
    ghost use Rattle.dotenvy_checker.specs.Words.{checker};
    ghost use Rattle.dotenvy_checker.specs.Described.{is_checker_free, is_checker_simple, none_refused};

    ghost described = { checker };

    ghost simple = { is_checker_simple };

    ghost free = { is_checker_free };

    ghost none_refused = { none_refused };

    fn command<'a>(global: Global) -> Result<Command<'a>, AllocError> {
        named(global, "dotenvy_check")
            .arg(flag(global, "next"))?
            .arg(flag(global, "strict"))?
            .arg(quiet(global))?
            .arg(flag(global, "text"))?
            .arg(flag(global, "together"))?
            .arg(flag(global, "ignore-environment"))?
            .arg(many(global, "allow"))?
            .arg(many(global, "deny"))?
            .arg(many(global, "known"))?
            .arg(many(global, "exclude"))?
            .arg(one(global, "schema"))?
            .arg(format(global))?
            .arg(files(global))
    }
}

// The option that has a short name.
fn quiet<'a>(global: Global) -> Arg<'a>
    ensures rule { rule_of result ≡ quiet_rule }
    ensures local { result.global ≡ false }
{
    flag(global, "quiet").short('q')
}

// The option that says how the report is written.
fn format<'a>(global: Global) -> Arg<'a>
    ensures rule { rule_of result ≡ format_rule }
    ensures local { result.global ≡ false }
{
    one(global, "format").default_value("text")
}
