//! Laws of the search for a file. A law is the contract of a function that does nothing: a call of it has no effect.

ghost use Rattle.dotenvy_base.specs.Laws.{HasOneSearch};
ghost use Rattle.dotenvy_base.specs.WorkedSearches.{HaveSearches};

/// Whatever is at each path, a search asks for one list of paths and has one answer.
pub fn one_search()
    ensures { HasOneSearch }
{}

/// Worked searches: which paths are asked for, and with which answer.
pub fn worked_searches()
    ensures { HaveSearches }
{}
