//! How a program reports the end of a run: its exit status, and its line on standard error.
//!
//! The statuses and the lines are our decision: 0 if the script ran, 3 if a file could not be read or was
//! refused, and 4 if the run stopped. A command line that is refused has status 2, which `kb_cli` reports.
ghost use Rattle.std.specs.Prelude.{◌≡◌};
ghost use Rattle.kb_run.specs.ExitStatus as report;

use crate::outcome::Stop;
use kb_base::Failure;
use kb_script::ScriptFault;
use std::fmt;

/// Shows the line on standard error of a run that stopped, without a line feed.
impl fmt::Display for Stop<'_> {
    ghost use Rattle.std.specs.Prelude.{Some};
    ghost use Rattle.kb_run.specs.ExitStatus.{stop_line};

    ghost output = { λ stop. Some (stop_line stop) };

    fn fmt<W: fmt::Write>(&self, f: &mut fmt::Formatter<W>) -> fmt::Result {
        match self {
            Stop::Unread(unread) => write!(f, "cannot read {unread}"),
            Stop::Load(fault) => write!(f, "{fault}"),
            Stop::Script(fault) => f.write_str(script_line(*fault)),
            Stop::NoMemory => f.write_str("stopped: out of memory"),
        }
    }
}

/// The line of a script's fault. A trap has the line of a run that stopped, because no verified handler
/// traps; a program that runs raw handlers has a line of its own for it.
fn script_line(fault: ScriptFault) -> &'static str
    ensures { result.now ≡ report.script_line fault }
{
    match fault {
        ScriptFault::Stopped | ScriptFault::Trapped => "stopped: out of memory",
        ScriptFault::TooLong => "script: too long",
        ScriptFault::ReadFailed => "script: read failed",
        ScriptFault::WriteFailed => "script: write failed",
    }
}

/// The exit status of a run with verified handlers: 0, 3 or 4.
pub fn ending(end: &Result<(), Stop<'_>>) -> u8
    ensures { result ≡ report.status_of end.now }
{
    match end {
        Ok(()) => 0,
        Err(Stop::Unread(_)) | Err(Stop::Load(_)) => 3,
        Err(Stop::Script(_)) | Err(Stop::NoMemory) => 4,
    }
}

/// How a run ends after its script, from the script's result and whether the rest of the trace in the buffer
/// was written. If that write failed, a script that ran, that trapped or that was refused memory ends as one
/// whose write failed.
pub fn script_stop<'a>(
    ran: Result<(), Failure<ScriptFault>>,
    is_flushed: bool,
) -> Result<(), Stop<'a>>
    ensures { result ≡ report.script_stop ran is_flushed }
{
    match (ran, is_flushed) {
        (Ok(()), true) => Ok(()),
        (Ok(()), false)
        | (Err(Failure::NoMemory), false)
        | (Err(Failure::Fault(ScriptFault::Trapped)), false) => Err(Stop::Script(
            ScriptFault::WriteFailed,
        )),
        (Err(Failure::NoMemory), true) => Err(Stop::NoMemory),
        (Err(Failure::Fault(fault)), _) => Err(Stop::Script(fault)),
    }
}
