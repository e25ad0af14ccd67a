//! How bad a finding is.

ghost use Rattle.std.specs.Prelude.{◌≡◌};
ghost use Rattle.dotenvy_reports.specs.Severities.{severity_name, severity_of};

use dotenvy_findings::finding::Finding;

/// How bad something is that is found.
///
/// ```text
/// Severity::Warning.name() // "warning"
/// ```
#[derive(Clone, Copy, Debug, PartialEq, Eq)]
pub enum Severity {
    /// A load stops at it.
    Error,
    /// A load goes on.
    Warning,
}

impl Severity {
    /// An error if a load stops at a line with this kind, and it is no guess.
    ///
    /// ```text
    /// // the kind `space-in-value`, behind a quote that stays open: Severity::Warning
    /// ```
    pub fn of(finding: Finding) -> Severity
        ensures { result ≡ severity_of finding }
    {
        if finding.kind.is_fault() && !finding.is_guess {
            Severity::Error
        } else {
            Severity::Warning
        }
    }

    /// Its name in reports.
    ///
    /// ```text
    /// Severity::Error.name() // "error"
    /// ```
    pub fn name(self) -> &'static str
        ensures { result.now ≡ severity_name self }
    {
        match self {
            Severity::Error => "error",
            Severity::Warning => "warning",
        }
    }
}
