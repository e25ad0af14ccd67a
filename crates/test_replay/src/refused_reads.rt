//! Rows of kind `refused_reads`: which reads a call makes, each of its requests for memory refused in turn.

use crate::answer::{push_answer, push_states};
use crate::file::dialect;
use crate::reader_call::ReaderCall;
use crate::refused::{MOST_REQUESTS, is_refused};
use anyhow::{Context, Result, bail};
use dotenvy::Plain;
use test_comparison::Comparison;
use test_support::Rationed;
use test_support::reader::{Cut, PlayedReader, Step, steps};
use test_support::system::PlayedSystem;
use test_support::telling::{Telling, spelled};

// A call, and the steps of its reader.
#[derive(Drop)]
struct Refused {
    rt: HostRuntime,
    call: ReaderCall,
    steps: Vec<Step>,
}

// The reads of a run, and whether a request was refused in it.
#[derive(Drop)]
struct Run {
    reads: Vec<String>,
    is_refused: bool,
}

impl Refused {
    // Refuses the request of this number.
    fn run(&self, number: u64) -> Result<Run> {
        let alloc = self.rt.alloc();
        let ration = Rationed::refusing(alloc, number);
        let mut telling = Telling::new(alloc, PlayedReader::new(&self.steps, Cut::Whole));
        let mut writer = Plain::new(Vec::new(alloc));
        let system = PlayedSystem::new(self.rt);
        let answer = self
            .call
            .make(&(&system, &ration), &mut telling, &mut writer);
        Ok(Run {
            is_refused: is_refused(&ration, &answer)?,
            reads: spelled(alloc, telling.into_calls())?,
        })
    }

    // Refuses each request in turn, and compares the reads of all runs.
    fn run_in_turn(
        &self,
        answers: &mut Vec<Comparison>,
        wanted: &str,
        states: &[&str],
    ) -> Result<()> {
        let alloc = self.rt.alloc();
        let mut met: Vec<String> = Vec::new(alloc);
        for number in 1..MOST_REQUESTS {
            let run = self.run(number)?;
            if !run.is_refused {
                push_answer(answers, "reads", "in all", wanted, run.reads)?;
                return push_states(answers, "reads", states, met);
            }
            let state = run.reads.join(alloc, "; ")?;
            if met.last() != Some(&state) {
                met.push(state)?;
            }
        }
        bail!("each run met a refusal")
    }
}

/// Plays a row, and adds its answers.
pub fn play(answers: &mut Vec<Comparison>, rt: HostRuntime, fields: &[&str]) -> Result<()> {
    let [name, dialect_field, steps_field, wanted, states @ ..] = fields else {
        bail!("{} fields in place of 4 and more", fields.len());
    };
    let dialect = dialect(dialect_field)?;
    let refused = Refused {
        rt,
        call: ReaderCall::named(name, dialect).context("no call")?,
        steps: steps(rt.alloc(), steps_field)?,
    };
    refused.run_in_turn(answers, wanted, states)
}
