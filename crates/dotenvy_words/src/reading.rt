//! Reads the words of a command line by `clap`, and finds the first word that is refused, by halves.

ghost use Rattle.std.specs.Prelude.{◌<◌, ◌≡◌, ◌≢◌, [], IfOk, IsSomeAnd, length, string_bytes};
ghost use Rattle.std.specs.List.{position_from};
ghost use Rattle.clap.specs.Words.{FailsBy, fault_of, found_of, matches_of, rows_of};
ghost use Rattle.dotenvy_words.specs.Found.{texts};
ghost use Rattle.dotenvy_words.specs.Asked.{before_text, names_text};
ghost use Rattle.dotenvy_words.specs.Refused.{HasMistake, IsFirstRefused, IsKindTold, IsRefused, StayRefused};
ghost use Rattle.dotenvy_words.specs.Reading.{IsReadingOf};

use crate::command_line::CommandLine;
use clap::error::ErrorKind;
use clap::{ArgMatches, Error};
use dotenvy_reports::one_line::one_line;
use std::alloc::{AllocError, Allocator, Global};

/// What the words of a command line ask for.
#[derive(Drop)]
pub enum Reading<'a, A: Allocator = Global> {
    /// What was found of them.
    Found(ArgMatches<'a>),
    /// To print how the program is called.
    Help,
    /// To print which version it is.
    Version,
    /// Nothing, as they are refused: why, and the first word that is refused, as it is printed.
    Mistake(ErrorKind, String<A>),
}

/// Reads the words after the program's name.
///
/// ```
/// // of the words `--next a.env`: that the option `next` is on, and the file a.env
/// let reading = read::<Line, Global>(global, global, &words)?;
/// ```
pub fn read<'a, L: CommandLine, A: Allocator>(
    global: Global,
    alloc: A,
    words: &'a [String<A>],
) -> Result<Reading<'a, A>, AllocError>
    ensures { IfOk result (IsReadingOf L.described (texts words.now)) }
{
    match matches::<L, A>(global, words) {
        Ok(found) => Ok(Reading::Found(found)),
        Err(error) => match error.kind() {
            ErrorKind::OutOfMemory => Err(AllocError),
            kind => {
                if is_refused::<L, A>(global, before_text(kind, words))? {
                    return mistake::<L, A>(global, alloc, words);
                }
                match kind {
                    ErrorKind::DisplayHelp => Ok(Reading::Help),
                    ErrorKind::DisplayVersion => Ok(Reading::Version),
                    _ => unreachable!(),
                }
            }
        },
    }
}

// Whether a word is a name of the option that asks for the text of this kind.
fn names_text(kind: ErrorKind, word: &str) -> bool
    ensures { result ≡ names_text kind word.now }
{
    match kind {
        ErrorKind::DisplayHelp => word == "-h" || word == "--help",
        ErrorKind::DisplayVersion => word == "-V" || word == "--version",
        _ => false,
    }
}

// The place of the first word that is a name of the option that asks for the text of this kind.
fn name_place<A: Allocator>(kind: ErrorKind, words: &[String<A>]) -> Option<usize>
    ensures { result ≡ position_from (λ word. names_text kind (string_bytes word)) 0 words.now }
{
    words
        .iter()
        .position(|word| names_text(kind, word.as_str()))
}

// The words before that place, or all of them.
fn before_text<A: Allocator>(kind: ErrorKind, words: &[String<A>]) -> &[String<A>]
    ensures { texts result.now ≡ before_text kind (texts words.now) }
{
    match name_place(kind, words) {
        Some(place) => &words[..place],
        None => words,
    }
}

// The first word that is refused, of words with a mistake, and which kind of mistake is told of it.
fn mistake<'a, L: CommandLine, A: Allocator>(
    global: Global,
    alloc: A,
    words: &[String<A>],
) -> Result<Reading<'a, A>, AllocError>
    requires { HasMistake L.described (texts words.now) }
    ensures { IfOk result (IsReadingOf L.described (texts words.now)) }
{
    match first_refused::<L, A>(global, words)? {
        Some((place, word)) => {
            let kind = told_kind::<L, A>(global, &words[..place + 1])?;
            Ok(Reading::Mistake(kind, one_line(alloc, word)?))
        }
        None => unreachable!(),
    }
}

// What `clap` reads of the words. What is found, and why the words are refused, are functions of them.
fn matches<'a, L: CommandLine, A: Allocator>(
    global: Global,
    words: &'a [String<A>],
) -> Result<ArgMatches<'a>, Error>
    ensures found { IfOk result
        (λ m. rows_of (found_of m) ≡ matches_of L.described (texts words.now)) }
    ensures fails { FailsBy (fault_of L.described (texts words.now)) result }
{
    L::command(global)?.try_get_matches_from(words)
}

// The kind of mistake that is told of words of which these are the first ones. What has a text and isn't its name is an
// unknown option.
fn told_kind<L: CommandLine, A: Allocator>(
    global: Global,
    front: &[String<A>],
) -> Result<ErrorKind, AllocError>
    requires { fault_of L.described (texts front.now) ≢ [] }
    ensures { IfOk result (IsKindTold L.described (texts front.now)) }
{
    match matches::<L, A>(global, front) {
        Ok(_) => unreachable!(),
        Err(error) => match error.kind() {
            ErrorKind::OutOfMemory => Err(AllocError),
            ErrorKind::DisplayHelp | ErrorKind::DisplayVersion => Ok(ErrorKind::UnknownArgument),
            other => Ok(other),
        },
    }
}

// The first word with which words are refused, whatever comes after it, and its place. It is sought by halves.
fn first_refused<'w, L: CommandLine, A: Allocator>(
    global: Global,
    words: &'w [String<A>],
) -> Result<Option<(usize, &'w str)>, AllocError>
    ensures { fault_of L.described (texts words.now) ≢ [] → IfOk result (λ found. IsSomeAnd found
        (λ at. IsFirstRefused L.described (texts words.now) at.0 at.1.now)) }
{
    let mut taken = 0;
    let mut refused = words.len();
    'halves: while refused - taken > 1 {
        let middle = taken + (refused - taken) / 2;
        if stay_refused::<L, A>(global, words, middle)? {
            refused = middle;
        } else {
            taken = middle;
        }
    }
    match words.get(taken) {
        Some(word) => Ok(Some((taken, word.as_str()))),
        None => Ok(None),
    }
}

// Whether words are refused up to a place, also with the word there, which could be the value of the word before it.
fn stay_refused<L: CommandLine, A: Allocator>(
    global: Global,
    words: &[String<A>],
    place: usize,
) -> Result<bool, AllocError>
    requires { place < length words.now }
    ensures { IfOk result (StayRefused L.described (texts words.now) place) }
{
    if !is_refused::<L, A>(global, &words[..place])? {
        return Ok(false);
    }
    is_refused::<L, A>(global, &words[..place + 1])
}

// Whether words are refused, or ask for a text.
fn is_refused<L: CommandLine, A: Allocator>(
    global: Global,
    words: &[String<A>],
) -> Result<bool, AllocError>
    ensures { IfOk result (IsRefused (fault_of L.described (texts words.now))) }
{
    match matches::<L, A>(global, words) {
        Ok(_) => Ok(false),
        Err(error) => match error.kind() {
            ErrorKind::OutOfMemory => Err(AllocError),
            _ => Ok(true),
        },
    }
}
