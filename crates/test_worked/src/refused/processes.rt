//! Environments of a process, copied while memory is refused.

use crate::refused::{is_done, refuse_in_turn};
use crate::shown::{pairs, sees_text};
use dotenvy::Environment;
use std::test::Fail;
use test_support::notation::{bytes, list, text};
use test_support::system::PlayedSystem;

#[test]
fn from_process(rt: HostRuntime) -> Result<(), Fail> {
    let alloc = rt.alloc();
    let mut entries = Vec::new(alloc);
    for entry in list(alloc, "A=1; LONG=%(1000*x); %ff=2; A=3; B==")? {
        entries.push(bytes(alloc, entry)?)?;
    }
    let wanted = text(alloc, "A=1; B==; LONG=%(1000*x)")?;
    let mut system = PlayedSystem::new(rt);
    system.entries = entries;
    refuse_in_turn(&rt, alloc, |ration| {
        let answer = Environment::from_process(&(&system, ration));
        if let Ok(environment) = &answer {
            sees_text(&rt, pairs(alloc, environment)?, wanted.as_str());
            assert!(rt; !environment.loaded());
        }
        Ok(is_done(&rt, ration, &answer))
    })
}
