//! `trusty`: reads a scene from standard input, runs it, and writes a report to standard output; or checks a report.
#![tactic(auto)]

mod check;
mod plain;
pub mod plan;
mod status;
mod telling;
#[cfg(test)]
mod tests;
mod texts;
#[cfg(test)]
mod thread_tests;
mod trusty;

use outside_io::{StdSink, StdSource};
use runners::NoHook;
use status::Status;
use std::env;
use std::io::ErrorKind;
use std::process::ExitCode;
use trusty::trusty;

// The words after the program's name. Words of which one is not UTF-8 are no command, and neither are no
// words at all.
fn words_of(rt: &HostRuntime) -> Result<Vec<String>, Status> {
    let args = match env::args(rt) {
        Ok(args) => args,
        Err(refused) if refused.kind() == ErrorKind::OutOfMemory => return Err(Status::NoMemory),
        Err(_) => return Ok(Vec::new(rt.alloc())),
    };
    let mut words = Vec::new(rt.alloc());
    for word in args.skip(1) {
        if words.push(word).is_err() {
            return Err(Status::NoMemory);
        }
    }
    Ok(words)
}

fn main(rt: HostRuntime) -> ExitCode {
    let status = match words_of(&rt) {
        Ok(words) => {
            let mut source = StdSource::new(rt.stdin());
            let mut sink = StdSink::new(rt.stdout());
            trusty(
                &rt,
                rt.alloc(),
                words.as_slice(),
                &mut source,
                &mut sink,
                &NoHook,
            )
        }
        Err(status) => status,
    };
    ExitCode::from(status.code())
}
