//! What is wrong with the values of options.

ghost use Rattle.std.specs.Prelude.{◌≡◌, map};
ghost use Rattle.std.specs.Option.{option_map};
ghost use Rattle.clap.specs.Words.{found_of, rows_of};
ghost use Rattle.dotenvy_words.specs.Found.{values_of};
ghost use Rattle.dotenvy_checker.specs.Words.{first_mistake, kind_mistake, mistake_of, value_mistake};

use clap::ArgMatches;
use dotenvy_findings::kind::Kind;
use dotenvy_findings::named::kind_named;
use dotenvy_reports::format::Format;

/// An option whose values are looked at.
#[derive(Clone, Copy, Debug)]
pub enum Checked {
    /// `--allow`, whose values are names of warnings.
    Allow,
    /// `--deny`, whose values are names of kinds.
    Deny,
    /// `--format`, whose value is the name of a format.
    Format,
}

/// What is wrong with a value.
#[derive(Clone, Copy, Debug)]
pub enum Mistake {
    /// There is no kind of this name.
    UnknownKind,
    /// The kind is an error, and can't be allowed.
    AllowedError,
    /// There is no format of this name.
    UnknownFormat,
}

/// The first value with which something is wrong, if there is one, and what.
pub(crate) fn mistake_of<'a>(found: &ArgMatches<'a>) -> Option<(Mistake, &'a str)>
    ensures { option_map (λ wrong. (wrong.0, wrong.1.now)) result
        ≡ mistake_of (rows_of (found_of found.now)) }
{
    if let Some(wrong) = option_mistake(found, Checked::Allow, "allow") {
        return Some(wrong);
    }
    if let Some(wrong) = option_mistake(found, Checked::Deny, "deny") {
        return Some(wrong);
    }
    option_mistake(found, Checked::Format, "format")
}

// The first of the values of the option of this name with which something is wrong.
fn option_mistake<'a>(
    found: &ArgMatches<'a>,
    option: Checked,
    name: &str,
) -> Option<(Mistake, &'a str)>
    ensures { option_map (λ wrong. (wrong.0, wrong.1.now)) result
        ≡ first_mistake option (values_of name.now (rows_of (found_of found.now))) }
{
    match found.get_strs(name) {
        Some(values) => first_mistake(option, values),
        None => None,
    }
}

// The first of these values of an option with which something is wrong.
fn first_mistake<'a>(option: Checked, values: &[&'a str]) -> Option<(Mistake, &'a str)>
    ensures { option_map (λ wrong. (wrong.0, wrong.1.now)) result
        ≡ first_mistake option (map (λ value. value.now) values.now) }
{
    'values: for value in values {
        if let Some(wrong) = value_mistake(option, value) {
            return Some((wrong, *value));
        }
    }
    None
}

// What is wrong with a value of an option.
fn value_mistake(option: Checked, value: &str) -> Option<Mistake>
    ensures { result ≡ value_mistake option value.now }
{
    match option {
        Checked::Allow => match kind_named(value) {
            Some(kind) => kind_mistake(kind),
            None => Some(Mistake::UnknownKind),
        },
        Checked::Deny => match kind_named(value) {
            Some(_) => None,
            None => Some(Mistake::UnknownKind),
        },
        Checked::Format => match Format::from_name(value) {
            Some(_) => None,
            None => Some(Mistake::UnknownFormat),
        },
    }
}

// What is wrong with allowing a kind.
fn kind_mistake(kind: Kind) -> Option<Mistake>
    ensures { result ≡ kind_mistake kind }
{
    if kind.is_fault() {
        Some(Mistake::AllowedError)
    } else {
        None
    }
}
