//! How many rows were played.

ghost use Rattle.std.specs.Prelude.{◌≡◌, ◌==◌, ◌&&◌, not};

use std::fmt;

/// How many rows were played, and how many of them differ.
#[derive(Drop)]
pub struct Counts {
    rows: u64,
    pub differ: u64,
}

impl Counts {
    /// Of no row.
    pub fn new() -> Counts
        ensures { result.differ ≡ 0 }
    {
        Counts { rows: 0, differ: 0 }
    }

    /// Counts one row more.
    pub fn add(&mut self, differs: bool)
        ensures { (self.new.differ == 0) ≡ (self.old.differ == 0 && not differs) }
    {
        self.rows = self.rows.saturating_add(1);
        if differs {
            self.differ = self.differ.saturating_add(1);
        }
    }

    /// Whether each answer was the wanted one.
    pub fn none_differs(&self) -> bool
        ensures { result ≡ (self.now.differ == 0) }
    {
        self.differ == 0
    }
}

impl fmt::Display for Counts {
    fn fmt<W: fmt::Write>(&self, f: &mut fmt::Formatter<W>) -> fmt::Result {
        let Counts { rows, differ } = self;
        write!(f, "{rows} rows, {differ} differ")
    }
}
