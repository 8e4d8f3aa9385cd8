// Reads the records of spool files, and prints what each is.
#![tactic(auto)]

mod line;
mod run;

use crate::run::run;
use anyhow::Result;
use std::env;
use std::process::ExitCode;

// Whether every file was sound.
fn start(rt: &HostRuntime) -> Result<bool> {
    let paths: Vec<String> = env::args(rt)?.skip(1).collect(rt.alloc())?;
    run(rt, paths.as_slice())
}

// `error: WHAT` on standard error, and then status 1.
fn main(rt: HostRuntime) -> ExitCode {
    match start(&rt) {
        Ok(true) => ExitCode::SUCCESS,
        Ok(false) => ExitCode::FAILURE,
        Err(error) => {
            let _ = eprintln!(rt; "error: {error}");
            ExitCode::FAILURE
        }
    }
}
