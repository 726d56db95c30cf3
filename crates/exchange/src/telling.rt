ghost use Rattle.std.specs.Prelude.{◌≡◌, if◌then◌else◌, is_ok};
ghost use Rattle.std.specs.Process.{exit_status};

use std::process::ExitCode;

// Tells an error on standard error, and answers the status to end with.
pub fn report(rt: &HostRuntime, res: anyhow::Result<()>) -> ExitCode
    ensures { exit_status result ≡ (if is_ok res then 0 else 1) }
{
    match res {
        Ok(()) => ExitCode::SUCCESS,
        Err(error) => {
            // The status tells of the error also where it cannot be written.
            let _ = eprintln!(rt; "{error}");
            ExitCode::FAILURE
        }
    }
}
