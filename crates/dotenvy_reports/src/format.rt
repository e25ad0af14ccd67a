//! The forms of reports.

ghost use Rattle.std.specs.Prelude.{◌≡◌};
ghost use Rattle.dotenvy_reports.specs.Formats.{format_of, separator};

/// The form of a report.
///
/// ```text
/// Format::from_name("sarif") // Some(Format::Sarif)
/// ```
#[derive(Clone, Copy, Debug, PartialEq, Eq)]
pub enum Format {
    /// A line for a reader: `.env:1:6: error: a value with a space needs quotes; .. [space-in-value]`.
    Text,
    /// A command for a workflow of GitHub: `::error file=.env,line=1,col=6,title=space-in-value::..`.
    Github,
    /// A result of SARIF 2.1.0, in a document that `push_sarif_start` begins.
    Sarif,
    /// A line of JSON: `{"file":".env","line":1,"column":6,"severity":"error",..}`.
    Json,
}

impl Format {
    /// The form with this name.
    ///
    /// ```text
    /// Format::from_name("xml") // None
    /// ```
    pub fn from_name(name: &str) -> Option<Format>
        ensures { result ≡ format_of name.now }
    {
        match name {
            "text" => Some(Format::Text),
            "github" => Some(Format::Github),
            "sarif" => Some(Format::Sarif),
            "json" => Some(Format::Json),
            _ => None,
        }
    }

    /// What stands between two reports: a comma between results of SARIF, and nothing else.
    ///
    /// ```text
    /// Format::Sarif.separator() // ","
    /// ```
    pub fn separator(self) -> &'static str
        ensures { result.now ≡ separator self }
    {
        match self {
            Format::Sarif => ",",
            Format::Text | Format::Github | Format::Json => "",
        }
    }
}
