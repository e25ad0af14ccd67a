//! Laws of checks. A law is the contract of a function that does nothing.

ghost use Rattle.dotenvy_checker.specs.Laws.{CheckedFilesLoad, FaultsStopLoads, FindingsOnce};
ghost use Rattle.dotenvy_checker.specs.Laws.{HasOneNumberedDecision, HasOneNumbering, SchemaIsMet};
ghost use Rattle.dotenvy_checker.specs.Laws.{TextIfTold};
ghost use Rattle.dotenvy_checker.specs.WorkedWords.{WorkedWords};

use dotenvy::Sink;
use std::alloc::Allocator;

/// A file has one list of lines, with their numbers and their entries, and these are the entries of the file.
pub fn one_numbering()
    ensures { HasOneNumbering }
{}

/// A file that can be read only in part decides one list of lines, with their numbers and their entries.
pub fn one_numbered_decision()
    ensures { HasOneNumberedDecision }
{}

/// Where no value has a NUL, no error is found in a file exactly if both loads of it return Ok.
///
/// The environment and the remembered values may be any. A warning stops no load, and neither does what is found
/// behind a quote that stays open.
pub fn faults_stop_loads()
    ensures { FaultsStopLoads }
{}

/// A file in which `check` found no fault loads: the result is Ok, or `Nul` for a value with a NUL. A load returns Ok
/// only if `check` found no fault.
///
/// The load reads the same bytes, into any environment. The reader has reads left for the bytes that it tells, no
/// allocation fails and no read is interrupted.
pub fn checked_files_load<A: Allocator, W: Sink>()
    ensures { CheckedFilesLoad A W }
{}

/// What is found in a file is one list of findings, decided by its bytes, its dialect and the names that have a value.
pub fn findings_once()
    ensures { FindingsOnce }
{}

/// Without the option `--text` nothing of a text is kept for the report.
pub fn text_if_told()
    ensures { TextIfTold }
{}

/// What some command lines ask for, and why others are refused.
///
/// Options may be repeated, and come between files. `-` is a file, and each word after `--` is one. The first word
/// that is no file and no option refuses all of them, unless `--help` or `--version` comes before it. A value is the
/// word after its option, or stands in the same word after `=`. An error can't be allowed.
pub fn worked_words()
    ensures { WorkedWords }
{}

/// Where a comparison with a schema finds no fault, `env_layers::Layers::require` returns `Ok` for the names of the
/// schema.
///
/// The layers have each name that the checked files declare, whatever its value.
pub fn schema_is_met<A: Allocator>()
    ensures { SchemaIsMet A }
{}
