//! `canvas`: shows Easl specifications, derives what their calls need, certifies their clients, and runs them on chosen test outcomes.
#![tactic(auto)]

mod answer;
mod canvas;
mod certifying;
mod client;
mod closing;
mod command;
mod deciding;
mod disk_shelf;
mod lines;
mod loading;
mod questions;
mod refusal;
mod running;
mod showing;
mod specification;
mod std_sink;
#[cfg(test)]
mod tests;
mod writing;

use crate::canvas::canvas;
use crate::disk_shelf::DiskShelf;
use crate::std_sink::StdSink;
use cv_base::Status;
use std::env;
use std::io::ErrorKind;
use std::process::ExitCode;

fn main(rt: HostRuntime) -> ExitCode {
    ExitCode::from(status(&rt).code())
}

/// Runs the program on its words; on none where one of them is not UTF-8.
fn status(rt: &HostRuntime) -> Status {
    let mut shelf = DiskShelf::new(rt);
    let mut out = StdSink::new(rt);
    match words(rt) {
        Ok(words) => canvas(rt.alloc(), words.as_slice(), &mut shelf, &mut out),
        Err(ErrorKind::OutOfMemory) => Status::Memory,
        Err(_) => canvas(rt.alloc(), &[], &mut shelf, &mut out),
    }
}

/// The words of the command line without the program's name.
fn words(rt: &HostRuntime) -> Result<Vec<String>, ErrorKind> {
    match env::args(rt) {
        Ok(mut words) => {
            let _ = words.next();
            match words.collect(rt.alloc()) {
                Ok(words) => Ok(words),
                Err(_) => Err(ErrorKind::OutOfMemory),
            }
        }
        Err(error) => Err(error.kind()),
    }
}
