//! Places in a file.

ghost use Rattle.std.specs.Prelude.{◌≡◌};
ghost use Rattle.dotenvy_findings.specs.Places.{next_place};

/// A place in a file. Lines and columns are counted from 1, columns in characters of the physical line.
#[derive(Clone, Copy, Debug, Drop, PartialEq, Eq)]
pub struct Place {
    /// The physical line.
    pub line: u64,
    /// The column.
    pub column: u64,
}

impl Place {
    /// The place of the character after this one, which is here.
    pub(crate) fn after(self, character: char) -> Place
        ensures { result ≡ next_place self character }
    {
        if character == '\n' {
            Place {
                line: self.line.saturating_add(1),
                column: 1,
            }
        } else {
            Place {
                line: self.line,
                column: self.column.saturating_add(1),
            }
        }
    }
}
