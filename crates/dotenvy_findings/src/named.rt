//! Kinds by their names.

ghost use Rattle.std.specs.Prelude.{◌≡◌};
ghost use Rattle.dotenvy_findings.specs.Named.{kind_named, KindsHaveNames};

use crate::kind::Kind;

/// The kinds, in the order of their numbers.
pub const KINDS: [Kind; 66] = [
    Kind::OpenDoubleQuote,
    Kind::OpenSingleQuote,
    Kind::OpenApostrophe,
    Kind::OpenQuoteInComment,
    Kind::BlankAtEnd,
    Kind::BackslashAtEnd,
    Kind::SpaceInValue,
    Kind::SeveralOnLine,
    Kind::Semicolon,
    Kind::TextAfterQuote,
    Kind::SlashComment,
    Kind::UnquotedKey,
    Kind::CommandWithSpace,
    Kind::Array,
    Kind::TypographicQuotes,
    Kind::BareNameInQuotes,
    Kind::DollarBeforeQuote,
    Kind::OpenBrace,
    Kind::BackslashInPlainValue,
    Kind::CarriageReturnEscape,
    Kind::TabEscape,
    Kind::UnknownEscape,
    Kind::LineContinuation,
    Kind::QuoteAfterName,
    Kind::NoEqualsSign,
    Kind::ExportWithoutValue,
    Kind::ExportOption,
    Kind::Colon,
    Kind::OtherWord,
    Kind::Section,
    Kind::OtherComment,
    Kind::Merge,
    Kind::NameCharacter,
    Kind::NameStart,
    Kind::NoName,
    Kind::NotUtf8,
    Kind::Utf16,
    Kind::Latin1,
    Kind::OtherFault,
    Kind::UnknownName,
    Kind::UnknownBracedName,
    Kind::LaterName,
    Kind::OwnName,
    Kind::Default,
    Kind::Required,
    Kind::EmptyBraces,
    Kind::BlankInBraces,
    Kind::LoneDollar,
    Kind::Command,
    Kind::NameBeforeUnderscore,
    Kind::TextAfterName,
    Kind::DroppedBackslash,
    Kind::DeclaredTwice,
    Kind::Nul,
    Kind::QuoteClosedLater,
    Kind::QuoteInComment,
    Kind::HashAfterEquals,
    Kind::DroppedQuotes,
    Kind::HashAfterQuote,
    Kind::SemicolonAfterQuote,
    Kind::LoneCarriageReturn,
    Kind::TypographicText,
    Kind::OddSpace,
    Kind::Tilde,
    Kind::HereDocument,
    Kind::KeyLine,
];

/// The kind that has this name.
pub fn kind_named(name: &str) -> Option<Kind>
    ensures { result ≡ kind_named name.now }
{
    let mut rest = KINDS.as_slice();
    'kinds: while let Some((kind, after)) = rest.split_first() {
        if kind.name() == name {
            return Some(*kind);
        }
        rest = after;
    }
    None
}

/// Each kind is the one that has its name, and no other name has a kind.
pub fn kinds_have_names()
    ensures { KindsHaveNames }
{}
