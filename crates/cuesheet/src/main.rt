// Reads one sheet and says what it holds.
#![tactic(auto)]

use std::io::Read;
use std::process::ExitCode;
use std::{env, fs, io};

const USAGE: &str = "usage: cuesheet [FILE]

Reads one sheet from FILE, or from standard input where no FILE is named or
FILE is -, and prints what it holds: rows, modules, accepted rows, nulls among
them, and rows filtered out. A sheet that breaks a rule of the format prints
\"refused\", the number of the refusal and what is wrong.

  -h, --help   print this help

Status: 0 where the sheet is good, 1 where it is refused or cannot be read.";

// An Option of an error would do, but `?` asks for a From, which only a type of ours can have.
enum Stop {
    // the reason has been printed
    Told,
    Io(io::Error),
}

impl From<io::Error> for Stop {
    fn from(e: io::Error) -> Stop {
        Stop::Io(e)
    }
}

fn main(rt: HostRuntime) -> ExitCode {
    match run(&rt) {
        Ok(()) => ExitCode::SUCCESS,
        Err(Stop::Told) => ExitCode::FAILURE,
        Err(Stop::Io(e)) => {
            let _ = eprintln!(rt; "cuesheet: {e}");
            ExitCode::FAILURE
        }
    }
}

fn run(rt: &HostRuntime) -> Result<(), Stop> {
    let mut args = env::args(rt)?;
    let _program = args.next();
    let Some(first) = args.next() else {
        return summarize_input(rt);
    };
    if args.next().is_some() {
        eprintln!(rt; "cuesheet: one FILE at a time; cuesheet --help says more")?;
        return Err(Stop::Told);
    }
    match first.as_str() {
        "-h" | "--help" => Ok(println!(rt; "{USAGE}")?),
        "-" => summarize_input(rt),
        option if option.starts_with('-') => {
            eprintln!(rt; "cuesheet: no option {option}; cuesheet --help says more")?;
            Err(Stop::Told)
        }
        path => summarize_file(rt, path),
    }
}

fn summarize_file(rt: &HostRuntime, path: &str) -> Result<(), Stop> {
    match fs::read(rt, path) {
        Ok(bytes) => summarize(rt, bytes.as_slice()),
        Err(e) => {
            eprintln!(rt; "cuesheet: cannot read {path}: {e}")?;
            Err(Stop::Told)
        }
    }
}

fn summarize_input(rt: &HostRuntime) -> Result<(), Stop> {
    let mut bytes = Vec::new(rt.alloc());
    match rt.stdin().read_to_end(&mut bytes) {
        Ok(_) => summarize(rt, bytes.as_slice()),
        Err(e) => {
            eprintln!(rt; "cuesheet: cannot read standard input: {e}")?;
            Err(Stop::Told)
        }
    }
}

fn summarize(rt: &HostRuntime, bytes: &[u8]) -> Result<(), Stop> {
    match sheets::summarize(bytes) {
        Ok(summary) => Ok(println!(rt; "{summary}")?),
        Err(refusal) => {
            println!(rt; "{refusal}")?;
            Err(Stop::Told)
        }
    }
}
