// Answers cases of single functions, a line each, to compare with another implementation's answers.
#![tactic(auto)]

mod answer;
mod credit;
mod decision;
mod places;
mod settings;
mod states;
mod table;
mod word;

use crate::answer::answer;
use anyhow::{Context, Result};
use std::io::{BufRead, BufReader, BufWriter, Write};
use std::process::ExitCode;
use std::{env, fs};

// Answers each line that is neither blank nor a comment.
fn run<R: BufRead + Drop>(rt: &HostRuntime, input: R) -> Result<()> {
    let mut out = BufWriter::new(rt.alloc(), rt.stdout())?;
    for (line, n) in input.lines(rt.alloc()).zip(1u64..) {
        let line = line?;
        let words: Vec<&str> = line.split_ascii_whitespace().collect(rt.alloc())?;
        if words.first().is_some_and(|word| !word.starts_with('#')) {
            answer(words.as_slice(), rt.alloc(), &mut out).context(format_args!("line {n}"))?;
        }
    }
    out.flush()?;
    Ok(())
}

fn start(rt: &HostRuntime) -> Result<()> {
    match env::args(rt)?.nth(1) {
        Some(path) => {
            let file = fs::open(rt, path.as_str())?;
            run(rt, BufReader::new(rt.alloc(), file)?)
        }
        None => run(rt, BufReader::new(rt.alloc(), rt.stdin())?),
    }
}

// `error: WHAT` on standard error, and then status 1.
fn main(rt: HostRuntime) -> ExitCode {
    match start(&rt) {
        Ok(()) => ExitCode::SUCCESS,
        Err(error) => {
            let _ = eprintln!(rt; "error: {error:#}");
            ExitCode::FAILURE
        }
    }
}
