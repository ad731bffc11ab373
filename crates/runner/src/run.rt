//! A run over the script of a file, or of standard input.

use crate::answering::answer_script;
use crate::failure::Failure;
use std::io::Write;
use std::{fs, io};

/// Answers the script of the file at the path, or that of standard input. No clause says more,
/// since none can know what files and standard input hold; what is written for a script is
/// promised by `answer_script`.
pub fn run(rt: &HostRuntime, path: Option<&str>) -> Result<(), Failure> {
    match path {
        None => answer_input(rt),
        Some(path) => answer_file(rt, path),
    }
}

fn answer_input(rt: &HostRuntime) -> Result<(), Failure> {
    let text = io::read_to_string(rt.alloc(), rt.stdin()).map_err(|error| Failure::BadInput {
        error,
    })?;
    answer(rt, text.as_str())
}

fn answer_file(rt: &HostRuntime, path: &str) -> Result<(), Failure> {
    let named = String::from_str(rt.alloc(), path)?;
    let text = fs::read_to_string(rt, path).map_err(|error| Failure::BadFile {
        path: named,
        error,
    })?;
    answer(rt, text.as_str())
}

fn answer(rt: &HostRuntime, text: &str) -> Result<(), Failure> {
    let mut out = io::BufWriter::new(rt.alloc(), rt.stdout())?;
    let outcome = answer_script(rt.alloc(), text, &mut out);
    // what was answered comes before what is said of a line that ends the run
    out.flush()?;
    outcome
}
