//! The command line of a program.

ghost use Rattle.std.specs.Prelude.{◌≡◌, [], IfOk, true};
ghost use Rattle.clap.specs.Words.{App, app_of, fault_of, is_simple, is_simple_and_free};

use clap::Command;
use std::alloc::{AllocError, Global};

/// A command line that `clap` reads.
///
/// An implementation describes it, for contracts alone and as `described`, by the rules of its arguments, and proves of
/// this description what [`read`](crate::reading::read) needs.
pub trait CommandLine {
    ghost described: { App };

    /// The command with this description.
    fn command<'a>(global: Global) -> Result<Command<'a>, AllocError>
        ensures { IfOk result (λ command. app_of command ≡ described) };

    // The command has none of the settings that `clap` does not specify.
    ghost simple: { is_simple described ≡ true };

    // And no argument of it has a rule on another.
    ghost free: { is_simple_and_free described ≡ true };

    // An empty command line is taken.
    ghost none_refused: { fault_of described [] ≡ [] };
}
