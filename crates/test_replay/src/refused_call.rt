//! Rows of kind `refused_call`: a call in a folder, each of its requests for memory refused in turn.

use crate::answer::{push_answer, push_front, push_states};
use crate::call::Call;
use crate::refused::{MOST_REQUESTS, unless_refused};
use crate::scene::{Scene, state, word_and_rest};
use anyhow::{Context, Result, bail};
use dotenvy::{Environment, Error, vars};
use std::alloc::Global;
use test_comparison::Comparison;
use test_support::Rationed;
use test_support::answers::fault;
use test_support::environment::environment_of;
use test_support::notation::pairs;
use test_support::system::PlayedSystem;

type Ration<'r> = &'r Rationed<Global>;

// How a run with one request refused went.
#[derive(Drop)]
enum Run {
    // The request came before the call.
    NotYet,
    // It was the call's, which left this state.
    Refused(String),
    // The call made fewer requests.
    Done,
}

// A call, what stands before it, and what it answers and leaves.
#[derive(Clone, Copy)]
struct Refused<'a> {
    rt: HostRuntime,
    scene: &'a Scene,
    names: &'a [(String, String)],
    is_used: bool,
    call: Call<'a>,
    wanted: &'a str,
    left: &'a str,
}

impl Refused<'_> {
    // An environment of the names. One that was used has its mark set, and no name of a file.
    fn environment<'r>(
        &self,
        ration: Ration<'r>,
    ) -> dotenvy::Result<Environment<Ration<'r>>, Ration<'r>> {
        let mut environment = environment_of(ration, self.names)?;
        if self.is_used {
            let system = PlayedSystem::without_files(self.rt);
            vars(&(&system, ration), &mut environment)?;
        }
        Ok(environment)
    }

    // Makes the call, and adds what it answered and left, unless a request was refused.
    fn make<'r>(
        &self,
        answers: &mut Vec<Comparison>,
        ration: Ration<'r>,
        environment: &mut Environment<Ration<'r>>,
    ) -> Result<bool> {
        let alloc = *answers.allocator();
        let mut given = Vec::new(alloc);
        let system = (&self.scene.system, ration);
        let answered = self.call.make(&system, environment, &mut given);
        let mut got = self.scene.all_below(&given)?;
        match answered {
            Ok(()) => {}
            Err(Error::Memory(_)) => {
                push_front(answers, "call", self.wanted, got)?;
                return Ok(false);
            }
            Err(error) => got.push(fault(alloc, &error)?)?,
        }
        push_answer(answers, "call", "answered", self.wanted, got)?;
        let left = state(alloc, environment)?;
        push_answer(answers, "call", "left", self.left, left)?;
        Ok(true)
    }

    // Refuses the request of this number. A call to which it was refused is made once more.
    fn run(&self, answers: &mut Vec<Comparison>, number: u64) -> Result<Run> {
        let ration = Rationed::refusing(*answers.allocator(), number);
        let Some(mut environment) = unless_refused(&ration, self.environment(&ration))? else {
            return Ok(Run::NotYet);
        };
        let is_done = self.make(answers, &ration, &mut environment)?;
        if is_done == ration.has_refused() {
            bail!("refused memory and the answer do not agree");
        }
        if is_done {
            return Ok(Run::Done);
        }
        Ok(Run::Refused(self.make_again(answers, &ration, environment)?))
    }

    // Makes the call once more, for which there is memory, and answers the state before that.
    fn make_again<'r>(
        &self,
        answers: &mut Vec<Comparison>,
        ration: Ration<'r>,
        mut environment: Environment<Ration<'r>>,
    ) -> Result<String> {
        let alloc = *answers.allocator();
        let left = state(alloc, &environment)?.join(alloc, "; ")?;
        if !self.make(answers, ration, &mut environment)? {
            bail!("memory is refused where there is enough");
        }
        Ok(left)
    }

    // Refuses each request of the call in turn, and compares the states that are left with these.
    fn run_in_turn(&self, answers: &mut Vec<Comparison>, states: &[&str]) -> Result<()> {
        let alloc = *answers.allocator();
        let mut met: Vec<String> = Vec::new(alloc);
        for number in 1..MOST_REQUESTS {
            match self.run(answers, number)? {
                Run::NotYet => {}
                Run::Refused(state) if met.last() == Some(&state) => {}
                Run::Refused(state) => met.push(state)?,
                Run::Done => {
                    return push_states(answers, "states", states, met);
                }
            }
        }
        bail!("each run met a refusal")
    }
}

/// Plays a row, and adds its answers.
pub fn play(
    answers: &mut Vec<Comparison>,
    rt: HostRuntime,
    scene: &mut Scene,
    fields: &[&str],
) -> Result<()> {
    let [names, steps, call_field, wanted, left, states @ ..] = fields else {
        bail!("{} fields in place of 5 and more", fields.len());
    };
    scene.set_up(steps)?;
    let (word, rest) = word_and_rest(call_field);
    let given = scene.text(rest)?;
    let call = Call::named(word, given.as_str()).context("no call")?;
    let pairs = pairs(rt.alloc(), names.strip_suffix("; loaded").unwrap_or(names))?;
    let refused = Refused {
        rt,
        scene,
        names: &pairs,
        is_used: names.ends_with("; loaded"),
        call,
        wanted,
        left,
    };
    refused.run_in_turn(answers, states)
}
