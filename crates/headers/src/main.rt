// Reads headers from the lines of a file, or of standard input, and prints what each is.
#![tactic(auto)]

mod run;

use crate::run::run;
use anyhow::Result;
use std::io::BufReader;
use std::process::ExitCode;
use std::{env, fs};

fn start(rt: &HostRuntime) -> Result<()> {
    match env::args(rt)?.nth(1) {
        Some(path) => {
            let file = fs::open(rt, path.as_str())?;
            run(rt, BufReader::new(rt.alloc(), file)?)
        }
        None => run(rt, BufReader::new(rt.alloc(), rt.stdin())?),
    }
}

// `error: WHAT` on standard error, and then status 1.
fn main(rt: HostRuntime) -> ExitCode {
    match start(&rt) {
        Ok(()) => ExitCode::SUCCESS,
        Err(error) => {
            let _ = eprintln!(rt; "error: {error}");
            ExitCode::FAILURE
        }
    }
}
