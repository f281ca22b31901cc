//! The program `l6`: it reads a job from standard input, and does with it what the command line
//! asks for.
#![tactic(auto)]

mod arguments;
mod checking;
mod help;
mod job;
mod program;
mod status;
#[cfg(test)]
mod tests;
mod trace_options;
mod tracing;
mod worked;

use arguments::{Task, WordsFault, task_of};
use l6_run::Host;
use program::exit_code;
use std::env;
use std::process::ExitCode;

fn main(rt: HostRuntime) -> ExitCode {
    match words(&rt) {
        Ok(words) => done(&rt, task_of(rt.alloc(), words.as_slice())),
        Err(fault) => done(&rt, Err(fault)),
    }
}

/// The words of the command line.
fn words(rt: &HostRuntime) -> Result<Vec<String>, WordsFault> {
    Ok(env::args(rt)?.collect(rt.alloc())?)
}

/// Does what was asked for.
fn done(rt: &HostRuntime, asked: Result<Task<'_>, WordsFault>) -> ExitCode {
    exit_code(
        rt.alloc(),
        asked,
        &mut Host::new(rt.stdin()),
        &mut Host::new(rt.stdout()),
        &mut rt.stderr(),
    )
}
