//! The program `pmb`: it hands the arguments and the standard streams of its runtime to the library.
#![tactic(auto)]

use pm_tool::{Sink, Source, program};
use std::env;
use std::process::ExitCode;

fn main(rt: HostRuntime) -> ExitCode {
    let mut input = Source::new(rt.stdin().lock());
    let mut output = Sink::new(rt.stdout().lock());
    let mut errors = Sink::new(rt.stderr().lock());
    program(
        rt.alloc(),
        env::args(&rt),
        &mut input,
        &mut output,
        &mut errors,
    )
}
