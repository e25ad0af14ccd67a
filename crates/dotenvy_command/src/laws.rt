//! Laws of the words of the command line. A law is the contract of a function that does nothing.

ghost use Rattle.dotenvy_command.specs.Laws.{HasOneUsage};
ghost use Rattle.dotenvy_command.specs.WorkedWords.{HaveUsages};

/// Any words ask for one thing, or are refused for one reason.
pub fn one_usage()
    ensures { HasOneUsage }
{}

/// Worked examples: what some words ask for, and why others are refused.
pub fn worked_usages()
    ensures { HaveUsages }
{}
