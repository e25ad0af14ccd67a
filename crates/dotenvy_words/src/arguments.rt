//! A command and its arguments.

ghost use Rattle.std.specs.Prelude.{◌≡◌, false};
ghost use Rattle.clap.specs.Words.{app_of, rule_of};
ghost use Rattle.dotenvy_words.specs.Rules.{file_rule, flag_rule, many_rule, named, one_rule};

use clap::{Arg, ArgAction, Command};
use std::alloc::Global;

/// A command without its options. Its words begin after the program's name, and an option may be repeated. The program
/// prints its version itself, so that the command needs none but an empty one, with which it knows `--version`.
pub fn named<'a>(global: Global, name: &'a str) -> Command<'a>
    ensures { app_of result ≡ named name.now }
{
    Command::new(global, name)
        .version("")
        .no_binary_name(true)
        .args_override_self(true)
}

/// An option without a value.
pub fn flag<'a>(global: Global, name: &'a str) -> Arg<'a>
    ensures rule { rule_of result ≡ flag_rule name.now }
    ensures local { result.global ≡ false }
{
    Arg::new(global, name).long(name).action(ArgAction::SetTrue)
}

/// An option with a value, each of whose uses counts.
pub fn many<'a>(global: Global, name: &'a str) -> Arg<'a>
    ensures rule { rule_of result ≡ many_rule name.now }
    ensures local { result.global ≡ false }
{
    Arg::new(global, name).long(name).action(ArgAction::Append)
}

/// An option with a value, whose last use counts.
pub fn one<'a>(global: Global, name: &'a str) -> Arg<'a>
    ensures rule { rule_of result ≡ one_rule name.now }
    ensures local { result.global ≡ false }
{
    Arg::new(global, name).long(name).action(ArgAction::Set)
}

/// The files: each word that is neither an option nor a value, after those of the arguments before.
pub fn files<'a>(global: Global) -> Arg<'a>
    ensures rule { rule_of result ≡ file_rule }
    ensures local { result.global ≡ false }
{
    Arg::new(global, "file").action(ArgAction::Append)
}
