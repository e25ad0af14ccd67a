//! Laws: what is written for a target is read as exactly the pairs.
//!
//! A law is the contract of a function that does nothing: a call of it has no effect.

ghost use Rattle.dotenvy_exporter.specs.Held.{DockerHoldsNoOther};
ghost use Rattle.dotenvy_exporter.specs.Laws.{ReadsBack, ReadsNoOther};

/// Each target reads of what is written for it exactly the pairs, in order, if it is refused none of them.
///
/// ```
/// // docker reads of `A=$B\nC="x"\n` the pair A, with the value `$B`, and the pair C, with the value `"x"`
/// reads_back();
/// ```
pub fn reads_back()
    ensures { ReadsBack }
{}

/// Whatever is written, docker reads no pair of it that it can't be given. Nothing is said of a line's length.
///
/// This is of texts, too, in which docker asks its own environment for a value. No name that it reads with a value is
/// empty, begins with white space or `#`, or has a space, a tab, a line feed or `=`, and no such value has a line feed.
///
/// ```
/// // no text makes docker read a value with a line feed, so such a pair can be written in no way
/// docker_holds_no_other();
/// ```
pub fn docker_holds_no_other()
    ensures { DockerHoldsNoOther }
{}

/// Of whatever text, a target reads only pairs that it can be given, or that are left out: a NUL for docker and
/// kubectl, a name that begins with a byte order mark for docker, and a name that no variable has for systemd.
///
/// Of shells it speaks of texts of `export` lines alone. JSON can be given every pair, so of it the law says nothing.
///
/// ```
/// // no text makes systemd read U+FFFF in a value, so its refusal loses nothing
/// reads_no_other();
/// ```
pub fn reads_no_other()
    ensures { ReadsNoOther }
{}
