//! The run of a script, and the status that is made of it.

ghost use Rattle.std.specs.Prelude.{◌≡◌, OnOk, OnErr};
ghost use Rattle.std.specs.Process.{exit_status};

use runner::failure::Failure;
use runner::run::run;
use std::process::ExitCode;

/// Runs the script of the file, or of standard input; the status is 0, or 1 where it ended early.
pub fn run_script(rt: &HostRuntime, file: Option<&str>) -> ExitCode {
    finish(rt, run(rt, file))
}

/// Says on standard error why a run ended early, if it did, and gives the status: 1 then, else 0.
fn finish(rt: &HostRuntime, outcome: Result<(), Failure>) -> ExitCode
    ensures whole { OnOk outcome (exit_status result ≡ 0) }
    ensures early { OnErr outcome (exit_status result ≡ 1) }
{
    match outcome {
        Ok(()) => ExitCode::SUCCESS,
        Err(failure) => {
            // a message that cannot be written changes nothing in the status
            let _ = eprintln!(rt; "{failure}");
            ExitCode::FAILURE
        }
    }
}
