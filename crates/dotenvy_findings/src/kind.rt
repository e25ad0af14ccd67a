//! The kinds of findings, and what is said of each.

ghost use Rattle.std.specs.Prelude.{◌≡◌};
ghost use Rattle.dotenvy_findings.specs.Kinds.{is_fault, kind_name, kind_number, message};

/// What is wrong with a line, or may be meant otherwise.
#[derive(Clone, Copy, Debug, PartialEq, Eq)]
pub enum Kind {
    /// `open-double-quote`, an error.
    OpenDoubleQuote,
    /// `open-single-quote`, an error.
    OpenSingleQuote,
    /// `open-apostrophe`, an error.
    OpenApostrophe,
    /// `open-quote-in-comment`, an error.
    OpenQuoteInComment,
    /// `blank-at-end`, an error.
    BlankAtEnd,
    /// `backslash-at-end`, an error.
    BackslashAtEnd,
    /// `space-in-value`, an error.
    SpaceInValue,
    /// `several-on-line`, an error.
    SeveralOnLine,
    /// `semicolon`, an error.
    Semicolon,
    /// `text-after-quote`, an error.
    TextAfterQuote,
    /// `slash-comment`, an error.
    SlashComment,
    /// `unquoted-key`, an error.
    UnquotedKey,
    /// `command-with-space`, an error.
    CommandWithSpace,
    /// `array`, an error.
    Array,
    /// `typographic-quotes`, an error.
    TypographicQuotes,
    /// `bare-name-in-quotes`, an error.
    BareNameInQuotes,
    /// `dollar-before-quote`, an error.
    DollarBeforeQuote,
    /// `open-brace`, an error.
    OpenBrace,
    /// `backslash-in-plain-value`, an error.
    BackslashInPlainValue,
    /// `carriage-return-escape`, an error.
    CarriageReturnEscape,
    /// `tab-escape`, an error.
    TabEscape,
    /// `unknown-escape`, an error.
    UnknownEscape,
    /// `line-continuation`, an error.
    LineContinuation,
    /// `quote-after-name`, an error.
    QuoteAfterName,
    /// `no-equals-sign`, an error.
    NoEqualsSign,
    /// `export-without-value`, an error.
    ExportWithoutValue,
    /// `export-option`, an error.
    ExportOption,
    /// `colon`, an error.
    Colon,
    /// `other-word`, an error.
    OtherWord,
    /// `section`, an error.
    Section,
    /// `other-comment`, an error.
    OtherComment,
    /// `merge`, an error.
    Merge,
    /// `name-character`, an error.
    NameCharacter,
    /// `name-start`, an error.
    NameStart,
    /// `no-name`, an error.
    NoName,
    /// `not-utf-8`, an error.
    NotUtf8,
    /// `utf-16`, an error.
    Utf16,
    /// `latin-1`, an error.
    Latin1,
    /// `other-fault`, an error.
    OtherFault,
    /// `unknown-name`, a warning.
    UnknownName,
    /// `unknown-braced-name`, a warning.
    UnknownBracedName,
    /// `later-name`, a warning.
    LaterName,
    /// `own-name`, a warning.
    OwnName,
    /// `default`, a warning.
    Default,
    /// `required`, a warning.
    Required,
    /// `empty-braces`, a warning.
    EmptyBraces,
    /// `blank-in-braces`, a warning.
    BlankInBraces,
    /// `lone-dollar`, a warning.
    LoneDollar,
    /// `command`, a warning.
    Command,
    /// `name-before-underscore`, a warning.
    NameBeforeUnderscore,
    /// `text-after-name`, a warning.
    TextAfterName,
    /// `dropped-backslash`, a warning.
    DroppedBackslash,
    /// `declared-twice`, a warning.
    DeclaredTwice,
    /// `nul`, a warning.
    Nul,
    /// `quote-closed-later`, a warning.
    QuoteClosedLater,
    /// `quote-in-comment`, a warning.
    QuoteInComment,
    /// `hash-after-equals`, a warning.
    HashAfterEquals,
    /// `dropped-quotes`, a warning.
    DroppedQuotes,
    /// `hash-after-quote`, a warning.
    HashAfterQuote,
    /// `semicolon-after-quote`, a warning.
    SemicolonAfterQuote,
    /// `lone-carriage-return`, a warning.
    LoneCarriageReturn,
    /// `typographic-text`, a warning.
    TypographicText,
    /// `odd-space`, a warning.
    OddSpace,
    /// `tilde`, a warning.
    Tilde,
    /// `here-document`, a warning.
    HereDocument,
    /// `key-line`, a warning.
    KeyLine,
}

impl Kind {
    /// Its name in reports and options.
    pub fn name(self) -> &'static str
        ensures { result.now ≡ kind_name self }
    {
        match self {
            Kind::OpenDoubleQuote => "open-double-quote",
            Kind::OpenSingleQuote => "open-single-quote",
            Kind::OpenApostrophe => "open-apostrophe",
            Kind::OpenQuoteInComment => "open-quote-in-comment",
            Kind::BlankAtEnd => "blank-at-end",
            Kind::BackslashAtEnd => "backslash-at-end",
            Kind::SpaceInValue => "space-in-value",
            Kind::SeveralOnLine => "several-on-line",
            Kind::Semicolon => "semicolon",
            Kind::TextAfterQuote => "text-after-quote",
            Kind::SlashComment => "slash-comment",
            Kind::UnquotedKey => "unquoted-key",
            Kind::CommandWithSpace => "command-with-space",
            Kind::Array => "array",
            Kind::TypographicQuotes => "typographic-quotes",
            Kind::BareNameInQuotes => "bare-name-in-quotes",
            Kind::DollarBeforeQuote => "dollar-before-quote",
            Kind::OpenBrace => "open-brace",
            Kind::BackslashInPlainValue => "backslash-in-plain-value",
            Kind::CarriageReturnEscape => "carriage-return-escape",
            Kind::TabEscape => "tab-escape",
            Kind::UnknownEscape => "unknown-escape",
            Kind::LineContinuation => "line-continuation",
            Kind::QuoteAfterName => "quote-after-name",
            Kind::NoEqualsSign => "no-equals-sign",
            Kind::ExportWithoutValue => "export-without-value",
            Kind::ExportOption => "export-option",
            Kind::Colon => "colon",
            Kind::OtherWord => "other-word",
            Kind::Section => "section",
            Kind::OtherComment => "other-comment",
            Kind::Merge => "merge",
            Kind::NameCharacter => "name-character",
            Kind::NameStart => "name-start",
            Kind::NoName => "no-name",
            Kind::NotUtf8 => "not-utf-8",
            Kind::Utf16 => "utf-16",
            Kind::Latin1 => "latin-1",
            Kind::OtherFault => "other-fault",
            Kind::UnknownName => "unknown-name",
            Kind::UnknownBracedName => "unknown-braced-name",
            Kind::LaterName => "later-name",
            Kind::OwnName => "own-name",
            Kind::Default => "default",
            Kind::Required => "required",
            Kind::EmptyBraces => "empty-braces",
            Kind::BlankInBraces => "blank-in-braces",
            Kind::LoneDollar => "lone-dollar",
            Kind::Command => "command",
            Kind::NameBeforeUnderscore => "name-before-underscore",
            Kind::TextAfterName => "text-after-name",
            Kind::DroppedBackslash => "dropped-backslash",
            Kind::DeclaredTwice => "declared-twice",
            Kind::Nul => "nul",
            Kind::QuoteClosedLater => "quote-closed-later",
            Kind::QuoteInComment => "quote-in-comment",
            Kind::HashAfterEquals => "hash-after-equals",
            Kind::DroppedQuotes => "dropped-quotes",
            Kind::HashAfterQuote => "hash-after-quote",
            Kind::SemicolonAfterQuote => "semicolon-after-quote",
            Kind::LoneCarriageReturn => "lone-carriage-return",
            Kind::TypographicText => "typographic-text",
            Kind::OddSpace => "odd-space",
            Kind::Tilde => "tilde",
            Kind::HereDocument => "here-document",
            Kind::KeyLine => "key-line",
        }
    }

    /// What is wrong, and what to type.
    pub fn message(self) -> &'static str
        ensures { result.now ≡ message self }
    {
        match self {
            Kind::OpenDoubleQuote =>
                "this double quote is never closed; close it, or write \\\" for one that is meant",
            Kind::OpenSingleQuote =>
                "this single quote is never closed; it can hold no single quote, so use double quotes",
            Kind::OpenApostrophe =>
                "this apostrophe opens a quote that is never closed; put the whole value in double quotes",
            Kind::OpenQuoteInComment =>
                "this quote is never closed; write a single space before the # of a comment",
            Kind::BlankAtEnd => "the file ends with a space; remove it, or end the line",
            Kind::BackslashAtEnd => "the file ends with a backslash; remove it, or write \\\\",
            Kind::SpaceInValue => "a value with a space needs quotes; put it in double quotes",
            Kind::SeveralOnLine =>
                "one declaration a line; put the next one on its own line, or the value in quotes",
            Kind::Semicolon =>
                "a semicolon separates nothing; put each declaration on its own line",
            Kind::TextAfterQuote =>
                "only a comment may follow a closing quote; put the whole value in one pair of quotes",
            Kind::SlashComment =>
                "a comment begins with a space and #; write # here, or put the value in quotes",
            Kind::UnquotedKey =>
                "a key in PEM form needs double quotes, from before BEGIN to after END",
            Kind::CommandWithSpace =>
                "no command is run; put the value in single quotes if it is meant as text",
            Kind::Array => "there are no arrays; put the value in quotes",
            Kind::TypographicQuotes => "these quotes are no quotes; write \" in their place",
            Kind::BareNameInQuotes =>
                "in double quotes a name needs braces; write ${NAME}, or \\$ for a dollar",
            Kind::DollarBeforeQuote => "a dollar takes the closing quote after it; write \\$",
            Kind::OpenBrace => "these braces are never closed; write ${NAME}, or \\$ for a dollar",
            Kind::BackslashInPlainValue =>
                "a backslash is no text here; put the value in single quotes",
            Kind::CarriageReturnEscape =>
                "there is no escape \\r; remove it, or put a carriage return in quotes as it is",
            Kind::TabEscape => "there is no escape \\t; a tab can stand as it is",
            Kind::UnknownEscape =>
                "there is no such escape; write \\\\ for a backslash, or use single quotes",
            Kind::LineContinuation =>
                "a value goes on in the next line only in quotes, and without a backslash",
            Kind::QuoteAfterName =>
                "this quote is text, since it follows a name without braces; write ${NAME}",
            Kind::NoEqualsSign => "there is no = after the name; write NAME=VALUE",
            Kind::ExportWithoutValue => "a file declares values and exports none; write NAME=VALUE",
            Kind::ExportOption => "export takes no option here; write NAME=VALUE",
            Kind::Colon => "this is no = ; write NAME=VALUE",
            Kind::OtherWord =>
                "this word is not part of an environment file; remove it, and write NAME=VALUE",
            Kind::Section => "there are no sections; remove the line, or make it a comment with #",
            Kind::OtherComment => "a comment begins with #",
            Kind::Merge => "a merge is unfinished here; keep one side, and remove this line",
            Kind::NameCharacter => "a name has letters of ASCII, digits, _ and . only",
            Kind::NameStart => "a name begins with a letter of ASCII or _",
            Kind::NoName => "there is no name before the =",
            Kind::NotUtf8 => "the line is not UTF-8 here; save the file as UTF-8",
            Kind::Utf16 => "the file is in UTF-16; save it as UTF-8",
            Kind::Latin1 =>
                "this byte is not UTF-8, and the file may be in Latin-1; save it as UTF-8",
            Kind::OtherFault =>
                "this is no line of an environment file; write NAME=VALUE, or make it a comment with #",
            Kind::UnknownName =>
                "the name after this dollar has no value; write \\$ for a dollar, or declare it before",
            Kind::UnknownBracedName =>
                "the name in these braces has no value here; declare it before, or set it",
            Kind::LaterName => "this name is declared only later; move that line up",
            Kind::OwnName =>
                "a name means what stands before its line, and this one has no value yet",
            Kind::Default =>
                "there are no defaults; declare one on a line before, and write ${NAME}",
            Kind::Required => "there are no required names, so this gives nothing; write ${NAME}",
            Kind::EmptyBraces => "these braces have no name, and give nothing; write ${NAME}",
            Kind::BlankInBraces => "a name in braces has no blanks; write ${NAME}",
            Kind::LoneDollar => "a dollar without a name gives nothing; write \\$",
            Kind::Command =>
                "no command is run; put the value in single quotes if it is meant as text",
            Kind::NameBeforeUnderscore => "the name ends before this _; write ${NAME}",
            Kind::TextAfterName =>
                "this character is text, since it follows a name without braces; write ${NAME}",
            Kind::DroppedBackslash => "a backslash at the end of a value gives nothing; write \\\\",
            Kind::DeclaredTwice => "this name is declared already, and the first value counts",
            Kind::Nul => "no value can have a NUL character; remove it",
            Kind::QuoteClosedLater =>
                "this quote is closed on a later line, behind what looks like a declaration",
            Kind::QuoteInComment =>
                "this quote takes the next lines into the comment; write a single space before the #",
            Kind::HashAfterEquals =>
                "a # right after = begins a comment, and the value is empty; put the value in quotes",
            Kind::DroppedQuotes =>
                "quotes inside a value are dropped; put the whole value in quotes of the other kind",
            Kind::HashAfterQuote =>
                "a # right after a closing quote is part of the value; write a space before it",
            Kind::SemicolonAfterQuote => "this semicolon is part of the value; remove it",
            Kind::LoneCarriageReturn =>
                "a carriage return stands alone before this character; end the line with a line feed",
            Kind::TypographicText =>
                "this quote is no quote, and is part of the value; write \" in its place",
            Kind::OddSpace =>
                "a space that looks like another, or like none, is part of the value; remove it",
            Kind::Tilde => "~ is not expanded; write the directory, or ${HOME}",
            Kind::HereDocument => "there are no here documents; put the text in double quotes",
            Kind::KeyLine =>
                "this looks like a line of a key in PEM form; put the whole key in double quotes",
        }
    }

    /// Whether a load stops at a line with it.
    pub fn is_fault(self) -> bool
        ensures { result ≡ is_fault self }
    {
        match self {
            Kind::OpenDoubleQuote => true,
            Kind::OpenSingleQuote => true,
            Kind::OpenApostrophe => true,
            Kind::OpenQuoteInComment => true,
            Kind::BlankAtEnd => true,
            Kind::BackslashAtEnd => true,
            Kind::SpaceInValue => true,
            Kind::SeveralOnLine => true,
            Kind::Semicolon => true,
            Kind::TextAfterQuote => true,
            Kind::SlashComment => true,
            Kind::UnquotedKey => true,
            Kind::CommandWithSpace => true,
            Kind::Array => true,
            Kind::TypographicQuotes => true,
            Kind::BareNameInQuotes => true,
            Kind::DollarBeforeQuote => true,
            Kind::OpenBrace => true,
            Kind::BackslashInPlainValue => true,
            Kind::CarriageReturnEscape => true,
            Kind::TabEscape => true,
            Kind::UnknownEscape => true,
            Kind::LineContinuation => true,
            Kind::QuoteAfterName => true,
            Kind::NoEqualsSign => true,
            Kind::ExportWithoutValue => true,
            Kind::ExportOption => true,
            Kind::Colon => true,
            Kind::OtherWord => true,
            Kind::Section => true,
            Kind::OtherComment => true,
            Kind::Merge => true,
            Kind::NameCharacter => true,
            Kind::NameStart => true,
            Kind::NoName => true,
            Kind::NotUtf8 => true,
            Kind::Utf16 => true,
            Kind::Latin1 => true,
            Kind::OtherFault => true,
            Kind::UnknownName => false,
            Kind::UnknownBracedName => false,
            Kind::LaterName => false,
            Kind::OwnName => false,
            Kind::Default => false,
            Kind::Required => false,
            Kind::EmptyBraces => false,
            Kind::BlankInBraces => false,
            Kind::LoneDollar => false,
            Kind::Command => false,
            Kind::NameBeforeUnderscore => false,
            Kind::TextAfterName => false,
            Kind::DroppedBackslash => false,
            Kind::DeclaredTwice => false,
            Kind::Nul => false,
            Kind::QuoteClosedLater => false,
            Kind::QuoteInComment => false,
            Kind::HashAfterEquals => false,
            Kind::DroppedQuotes => false,
            Kind::HashAfterQuote => false,
            Kind::SemicolonAfterQuote => false,
            Kind::LoneCarriageReturn => false,
            Kind::TypographicText => false,
            Kind::OddSpace => false,
            Kind::Tilde => false,
            Kind::HereDocument => false,
            Kind::KeyLine => false,
        }
    }

    /// Its place in the list of kinds, counted from 0.
    pub fn number(self) -> u8
        ensures { result ≡ kind_number self }
    {
        match self {
            Kind::OpenDoubleQuote => 0,
            Kind::OpenSingleQuote => 1,
            Kind::OpenApostrophe => 2,
            Kind::OpenQuoteInComment => 3,
            Kind::BlankAtEnd => 4,
            Kind::BackslashAtEnd => 5,
            Kind::SpaceInValue => 6,
            Kind::SeveralOnLine => 7,
            Kind::Semicolon => 8,
            Kind::TextAfterQuote => 9,
            Kind::SlashComment => 10,
            Kind::UnquotedKey => 11,
            Kind::CommandWithSpace => 12,
            Kind::Array => 13,
            Kind::TypographicQuotes => 14,
            Kind::BareNameInQuotes => 15,
            Kind::DollarBeforeQuote => 16,
            Kind::OpenBrace => 17,
            Kind::BackslashInPlainValue => 18,
            Kind::CarriageReturnEscape => 19,
            Kind::TabEscape => 20,
            Kind::UnknownEscape => 21,
            Kind::LineContinuation => 22,
            Kind::QuoteAfterName => 23,
            Kind::NoEqualsSign => 24,
            Kind::ExportWithoutValue => 25,
            Kind::ExportOption => 26,
            Kind::Colon => 27,
            Kind::OtherWord => 28,
            Kind::Section => 29,
            Kind::OtherComment => 30,
            Kind::Merge => 31,
            Kind::NameCharacter => 32,
            Kind::NameStart => 33,
            Kind::NoName => 34,
            Kind::NotUtf8 => 35,
            Kind::Utf16 => 36,
            Kind::Latin1 => 37,
            Kind::OtherFault => 38,
            Kind::UnknownName => 39,
            Kind::UnknownBracedName => 40,
            Kind::LaterName => 41,
            Kind::OwnName => 42,
            Kind::Default => 43,
            Kind::Required => 44,
            Kind::EmptyBraces => 45,
            Kind::BlankInBraces => 46,
            Kind::LoneDollar => 47,
            Kind::Command => 48,
            Kind::NameBeforeUnderscore => 49,
            Kind::TextAfterName => 50,
            Kind::DroppedBackslash => 51,
            Kind::DeclaredTwice => 52,
            Kind::Nul => 53,
            Kind::QuoteClosedLater => 54,
            Kind::QuoteInComment => 55,
            Kind::HashAfterEquals => 56,
            Kind::DroppedQuotes => 57,
            Kind::HashAfterQuote => 58,
            Kind::SemicolonAfterQuote => 59,
            Kind::LoneCarriageReturn => 60,
            Kind::TypographicText => 61,
            Kind::OddSpace => 62,
            Kind::Tilde => 63,
            Kind::HereDocument => 64,
            Kind::KeyLine => 65,
        }
    }
}
