// Reads a sitting from the file named by the first argument, or from standard input, and prints what it tells.
#![tactic(auto)]

use sitting::run::run;
use std::process::ExitCode;
use std::{env, fs, io};

fn input(rt: &HostRuntime) -> io::Result<String> {
    match env::args(rt)?.nth(1) {
        Some(path) => fs::read_to_string(rt, path),
        None => io::read_to_string(rt.alloc(), rt.stdin()),
    }
}

// Succeeds where every line could be taken.
fn sit(rt: &HostRuntime) -> io::Result<ExitCode> {
    let text = input(rt)?;
    let told = run(rt.alloc(), text.as_str())?;
    rt.print(told.text.as_str())?;
    Ok(if told.sound {
        ExitCode::SUCCESS
    } else {
        ExitCode::FAILURE
    })
}

fn main(rt: HostRuntime) -> ExitCode {
    match sit(&rt) {
        Ok(code) => code,
        Err(error) => {
            let _ = eprintln!(rt; "chooser: {error}");
            ExitCode::FAILURE
        }
    }
}
