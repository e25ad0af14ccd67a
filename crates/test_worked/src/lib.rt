//! Tests of what a row of text cannot ask: environments, errors and what they print, faults of std, and callers. Tests
//! alone.
#![tactic(auto)]

#[cfg(test)]
mod allocator;
#[cfg(test)]
mod callers;
#[cfg(test)]
mod environments;
#[cfg(test)]
mod errors;
#[cfg(test)]
mod failures;
#[cfg(test)]
mod faults_of_std;
#[cfg(test)]
mod first_use;
#[cfg(test)]
mod lines;
#[cfg(test)]
mod memory;
#[cfg(test)]
mod missing;
#[cfg(test)]
mod output;
#[cfg(test)]
mod processes;
#[cfg(test)]
mod refused;
#[cfg(test)]
mod searches;
#[cfg(test)]
mod shown;
#[cfg(test)]
mod sources;
