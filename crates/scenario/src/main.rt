// Carries a link through the calls of a scenario, and prints what each answers.
#![tactic(auto)]

use scenario_play::breaks::play_breaks;
use scenario_play::files::{Files, NoFile};
use scenario_play::play::play;
use scenario_play::trouble::Failure;
use std::alloc::Global;
use std::io::{BufRead, BufReader, BufWriter, Read, Write};
use std::process::ExitCode;
use std::{env, fs, io};

const USAGE: &str = "usage: scenario [--breaks] [FILE]";

// The files that lie where the program runs.
#[derive(Clone, Copy)]
struct Disk<'r>(&'r HostRuntime);

impl Files for Disk<'_> {
    fn read(&self, _heap: Global, path: &str) -> Result<Vec<u8>, NoFile> {
        fs::read(self.0, path).map_err(|_| NoFile)
    }
}

// What was to be said is said: the process ends with status 1.
#[derive(Drop)]
struct Failed;

fn fail(rt: &HostRuntime, what: impl std::fmt::Display + Drop) -> Failed {
    let _ = eprintln!(rt; "error: {what}");
    Failed
}

// Prints what each line answers.
fn run<R: BufRead + Drop>(rt: &HostRuntime, input: R) -> Result<(), Failed> {
    let mut out = BufWriter::new(rt.alloc(), rt.stdout()).map_err(|e| fail(rt, e))?;
    let played = play(rt.alloc(), input, &Disk(rt), &mut out);
    out.flush().map_err(|e| fail(rt, e))?;
    played.map_err(|failure| fail(rt, failure))
}

// Whether no ticket was lost, wherever the link broke.
fn run_breaks<R: Read + Drop>(rt: &HostRuntime, mut input: R) -> Result<(), Failed> {
    let mut scenario = Vec::new(rt.alloc());
    input.read_to_end(&mut scenario).map_err(|e| fail(rt, e))?;
    let played = play_breaks(rt.alloc(), scenario.as_slice(), &Disk(rt));
    let breaks = played.map_err(|failure| fail(rt, failure))?;
    println!(rt; "breaks: {breaks}").map_err(|e| fail(rt, e))?;
    if breaks.lost > 0 { Err(Failed) } else { Ok(()) }
}

// What the program is asked for.
#[derive(Clone, Copy)]
struct Asked<'w> {
    is_breaking: bool,
    // Standard input is read where no file is named.
    path: Option<&'w str>,
}

fn read_words(words: &[String]) -> Option<Asked<'_>> {
    let (is_breaking, rest) = match words {
        [first, rest @ ..] if first.as_str() == "--breaks" => (true, rest),
        all => (false, all),
    };
    let path = match rest {
        [] => None,
        [path] => Some(path.as_str()),
        _ => return None,
    };
    Some(Asked { is_breaking, path })
}

fn carry<R: Read + Drop>(rt: &HostRuntime, input: R, is_breaking: bool) -> Result<(), Failed> {
    let input = BufReader::new(rt.alloc(), input).map_err(|e| fail(rt, e))?;
    if is_breaking {
        run_breaks(rt, input)
    } else {
        run(rt, input)
    }
}

fn words(rt: &HostRuntime) -> io::Result<Vec<String>> {
    Ok(env::args(rt)?.skip(1).collect(rt.alloc())?)
}

fn start(rt: &HostRuntime) -> Result<(), Failed> {
    let words = words(rt).map_err(|e| fail(rt, e))?;
    let asked = read_words(words.as_slice()).ok_or_else(|| fail(rt, USAGE))?;
    match asked.path {
        Some(path) => {
            let file = fs::open(rt, path).map_err(|e| fail(rt, format_args!("{path}: {e}")))?;
            carry(rt, file, asked.is_breaking)
        }
        None => carry(rt, rt.stdin(), asked.is_breaking),
    }
}

fn main(rt: HostRuntime) -> ExitCode {
    match start(&rt) {
        Ok(()) => ExitCode::SUCCESS,
        Err(Failed) => ExitCode::FAILURE,
    }
}
