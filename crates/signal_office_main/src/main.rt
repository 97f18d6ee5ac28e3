//! The program of the traffic signal office: it hands its words, the standard input and both
//! outputs to `run_words` of `signal_office`.
#![tactic(auto)]

use office_http::{FromRead, ToWrite};
use signal_office::run_words;
use signal_office_faults::{Fault, report};
use std::env;
use std::io::ErrorKind;
use std::process::ExitCode;

/// Does what the words of the command line ask for, with the standard input and both outputs, and
/// gives the status. The fault is Words if the words are not UTF-8 or can't be read, or Memory.
fn run(rt: &HostRuntime) -> Result<u8, Fault> {
    let alloc = rt.alloc();
    let words = match env::args(rt) {
        Ok(words) => words,
        Err(error) if error.kind() == ErrorKind::OutOfMemory => return Err(Fault::Memory),
        Err(_) => return Err(Fault::Words),
    };
    let args: Vec<String> = words.collect(alloc)?;
    let words: Vec<&str> = args.iter().map(String::as_str).collect(alloc)?;
    let mut source = FromRead::new(rt.stdin());
    let mut out = ToWrite::new(rt.stdout());
    let mut err = ToWrite::new(rt.stderr());
    Ok(run_words(rt, alloc, &words, &mut source, &mut out, &mut err))
}

fn main(rt: HostRuntime) -> ExitCode {
    let status = match run(&rt) {
        Ok(status) => status,
        Err(fault) => report(&mut ToWrite::new(rt.stderr()), fault),
    };
    ExitCode::from(status)
}
