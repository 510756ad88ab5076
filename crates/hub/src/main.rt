// The console: plays scenarios from standard input, or from the files named as arguments.
#![tactic(auto)]

mod scenario;

use crate::scenario::Scenario;
use std::env::FillError;
use std::fs::File;
use std::io;
use std::rt::Env;

// The longest argument that is taken for a file's name.
const LONGEST_NAME: usize = 4096;

// Reports a scenario that could not be read, or not to its end.
fn report(rt: &HostRuntime, name: &str, end: io::Result<()>) -> io::Result<()> {
    if let Err(e) = end {
        eprintln!(rt; "hub: {name}: {e}")?;
    }
    Ok(())
}

// Plays a file. One that cannot be read is reported.
fn play_file(rt: &HostRuntime, name: &[u8]) -> io::Result<()> {
    let Ok(path) = std::str::from_utf8(name) else {
        let shown = String::from_utf8_lossy(rt.alloc(), name)?;
        return eprintln!(rt; "hub: {shown}: the name is no UTF-8");
    };
    let end = match File::open(rt, path) {
        Ok(file) => Scenario::play(rt, file)?,
        Err(e) => Err(e),
    };
    report(rt, path, end)
}

// Plays the file that argument i names. Answers whether there is such an argument.
#[inline(never)]
fn play_argument(rt: &HostRuntime, i: usize) -> io::Result<bool> {
    let mut name = [0u8; LONGEST_NAME];
    match rt.arg(i, &mut name) {
        Ok(len) => play_file(rt, &name[..len])?,
        Err(FillError::TooLong) => eprintln!(rt; "hub: argument {i}: the name is too long")?,
        Err(FillError::NotPresent) => return Ok(false),
    }
    Ok(true)
}

// Plays standard input. Neither this nor `play_argument` is made a part of `main`, whose stack would then hold that of both,
// whichever is played.
#[inline(never)]
fn play_standard_input(rt: &HostRuntime) -> io::Result<()> {
    let end = Scenario::play(rt, rt.stdin())?;
    report(rt, "standard input", end)
}

fn main(rt: HostRuntime) -> io::Result<()> {
    if !play_argument(&rt, 1)? {
        return play_standard_input(&rt);
    }
    // By number: the library's list of all arguments refuses them all where one is no UTF-8.
    for i in 2..usize::MAX {
        if !play_argument(&rt, i)? {
            break;
        }
    }
    Ok(())
}
