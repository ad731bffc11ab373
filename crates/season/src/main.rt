//! Runs a whole season of one message set from a script, and answers questions about tables; or
//! compares the models of two files.

#![tactic(auto)]

mod command;
mod pair;
mod run;

use clap::ArgMatches;
use std::env;
use std::process::ExitCode;

fn main(rt: HostRuntime) -> anyhow::Result<ExitCode> {
    let heap = rt.alloc();
    let words: Vec<String> = env::args(&rt)?.collect(heap)?;
    match command::command(heap)?.try_get_matches_from(words.as_slice()) {
        Ok(matches) => Ok(answer(&rt, &matches)),
        Err(error) => {
            error.print(&rt)?;
            Ok(ExitCode::from(error.exit_code() as u8))
        }
    }
}

// Does what the command line asks for, and gives the status.
fn answer(rt: &HostRuntime, matches: &ArgMatches<'_>) -> ExitCode {
    match matches.get_strs(command::COMPARE) {
        Some([sent, expected]) => pair::compare_files(rt, sent, expected),
        _ => run::run_script(rt, matches.get_str(command::FILE)),
    }
}
