//! Serves the connection on standard input by a script.
#![tactic(auto)]

ghost use Rattle.std.specs.Prelude.{◌≡◌, ◌<◌};

mod run;
#[cfg(test)]
mod scripts;
#[cfg(test)]
mod tests;

use njs_conn::write_whole;
use njs_edge::{RealClock, RealFiles, StdSink, StdSource};
use njs_text::{NoMemory, Steps, Text, TextFault};
pub use run::{Status, run};
use std::env;
use std::io::ErrorKind;
use std::marker::Brand;
use std::process::ExitCode;
use std::sync::ledger::{Blank, Ledger};

// The words after the program's name. Where one is no text there are none, which no command has.
fn words(rt: &HostRuntime) -> Result<Vec<Text>, NoMemory> {
    let alloc = rt.alloc();
    let mut words = Vec::new(alloc);
    let args = match env::args(rt) {
        Ok(args) => args,
        Err(error) if error.kind() == ErrorKind::OutOfMemory => return Err(NoMemory),
        Err(_) => return Ok(words),
    };
    for arg in args.skip(1) {
        match Text::from_utf8(alloc, arg.as_bytes()) {
            Ok(word) => words.push(word)?,
            Err(TextFault::NoMemory) => return Err(NoMemory),
            Err(_) => return Ok(Vec::new(alloc)),
        }
    }
    Ok(words)
}

fn code(status: &Status) -> u8 {
    match status {
        Status::Finished => 0,
        Status::Usage => 2,
        Status::ScriptRefused(_, _) => 4,
        Status::FileFault(_) => 5,
        Status::Cut => 6,
        Status::ReadFault => 7,
        Status::WriteFault => 8,
        Status::NoMemory => 9,
    }
}

// Runs over the real outside.
fn run_real<L: Ledger>(rt: &HostRuntime, blank: Blank) -> u8
    requires name { blank.name ≡ L.name }
    requires parts { blank.parts ≡ L.parts }
    requires some { 0 < L.parts }
{
    let mut notes = StdSink::new(rt.stderr());
    let Ok(words) = words(rt) else {
        let _ = write_whole(&mut notes, b"no memory\n");
        return code(&Status::NoMemory);
    };
    let mut files = RealFiles::new(rt);
    let mut clock = RealClock::new(rt);
    let mut source = StdSource::new(rt.stdin());
    let mut sink = StdSink::new(rt.stdout());
    let mut steps = Steps::<L>::new(blank);
    let status = run(
        rt.alloc(),
        &words,
        &mut files,
        &mut clock,
        &mut source,
        &mut sink,
        &mut notes,
        &mut steps,
    );
    code(&status)
}

fn main(rt: HostRuntime) -> ExitCode {
    ExitCode::from(run_real::<Brand>(&rt, Blank::new(1)))
}
