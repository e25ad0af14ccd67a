//! What was answered, beside what was wanted, for programs that test.
#![tactic(auto)]

ghost use Rattle.std.specs.Prelude.{◌≡◌, ◌==◌, IfOk, vec_len, not, filter, length};
ghost use Rattle.test_comparison.specs.Comparison.{is_difference};

use std::alloc::{AllocError, Global};
use std::io;

/// What was asked, in which way, which texts were wanted as the answer, and which were got.
///
/// ```
/// let told = tell_differences(&rt, "a-row", &comparisons)?;    // a-row, items in all: wanted A=1, got A=2
/// ```
#[derive(Drop)]
pub struct Comparison {
    pub what: &'static str,
    pub way: &'static str,
    pub wanted: Vec<String>,
    pub got: Vec<String>,
}

impl Comparison {
    /// Whether other texts were got than the wanted ones.
    fn differs(&self) -> bool
        ensures { result ≡ is_difference self.now }
    {
        self.wanted != self.got
    }

    fn difference(&self, alloc: Global) -> Result<String, AllocError> {
        let wanted = self.wanted.join(alloc, "; ")?;
        let got = self.got.join(alloc, "; ")?;
        format!(in alloc; "{} {}: wanted {wanted}, got {got}", self.what, self.way)
    }
}

/// A text for each comparison that differs.
pub fn differences(alloc: Global, comparisons: &[Comparison]) -> Result<Vec<String>, AllocError>
    ensures { IfOk result (λ texts. vec_len texts ≡ length (filter is_difference comparisons.now)) }
{
    let mut found = Vec::new(alloc);
    'comparisons: for comparison in comparisons {
        if comparison.differs() {
            found.push(comparison.difference(alloc)?)?;
        }
    }
    Ok(found)
}

/// Prints each difference behind a name on standard error, and tells whether there is one.
pub fn tell_differences<R: AllocGlobal + Eprint>(
    rt: &R,
    name: &str,
    comparisons: &[Comparison],
) -> io::Result<bool>
    ensures { IfOk result
        (λ told. told ≡ not (length (filter is_difference comparisons.now) == 0)) }
{
    let differences = differences(rt.alloc(), comparisons)?;
    for difference in &differences {
        eprintln!(rt; "{name}, {difference}")?;
    }
    Ok(!differences.is_empty())
}
