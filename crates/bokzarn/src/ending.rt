ghost use Rattle.std.specs.Prelude.{◌≡◌, OnOk};
ghost use Rattle.std.specs.Process.{exit_status};
ghost use Rattle.std.specs.Io.KnownBytes.{Appends};
ghost use Rattle.wh_shell.specs.Code.{code_of};
ghost use Rattle.bokzarn.specs.Ending.{status_of, refusals_reason_of, foreign_reason_of};
ghost use Rattle.bokzarn.specs.Ending.{fault_reason_of, reason_of, report_of};

use std::io;
use std::io::Write;
use std::process::ExitCode;
use wh_shell::{Fault, Status};

/// How the program ends.
#[derive(Clone, Copy, Debug, PartialEq, Eq)]
pub(crate) enum Ending {
    /// With this status, of a run or without one.
    With(Status),
    /// The file can't be opened.
    Unopened,
    /// Another run has the file open.
    Locked,
}

impl Ending {
    /// Its status.
    pub(crate) fn status(&self) -> Status
        ensures { result ≡ status_of self.now }
    {
        match self {
            Ending::With(status) => *status,
            Ending::Unopened | Ending::Locked => Status::Stopped(Fault::Disk),
        }
    }
}

// Writes the line that says why it ends so; there is none where nothing was refused.
fn write_reason<W: Write>(err: &mut W, ending: &Ending) -> io::Result<()>
    ensures { OnOk result
        (Appends (W.contents err.old) (W.contents err.new) (reason_of ending.now)) }
{
    match ending {
        Ending::With(Status::Usage) => write!(
            err,
            "usage: bokzarn PATH run [--workers W] [--clock system] < SCRIPT, or bokzarn PATH bench [--workers W] N SEED\n"
        ),
        Ending::With(Status::Read { refusals }) => write_refusals(err, *refusals),
        Ending::With(Status::Stopped(fault)) => write_fault(err, fault),
        Ending::Locked => write!(err, "bokzarn: another run has the file open\n"),
        Ending::Unopened => write!(err, "bokzarn: the file can't be opened\n"),
    }
}

fn write_fault<W: Write>(err: &mut W, fault: &Fault) -> io::Result<()>
    ensures { OnOk result
        (Appends (W.contents err.old) (W.contents err.new) (fault_reason_of fault.now)) }
{
    match fault {
        Fault::OutOfMemory => write!(err, "bokzarn: memory ran out\n"),
        Fault::Disk => write!(err, "bokzarn: the file failed\n"),
        Fault::Script => write!(err, "bokzarn: the script can't be read\n"),
        Fault::Output => write!(err, "bokzarn: the replies can't be written\n"),
        Fault::NotWarehouse { at } => write_foreign(err, *at),
        Fault::Damaged { at } => write!(
            err,
            "bokzarn: at byte {at} of the file stands no partition as it was written\n"
        ),
        Fault::FileFull { len, need } => write!(
            err,
            "bokzarn: a commit at byte {len} needs {need} bytes, and a file has at most 1099511627776\n"
        ),
        Fault::ScriptTooLong { taken } => write!(
            err,
            "bokzarn: a script has at most 1073741824 bytes, and {taken} were read\n"
        ),
    }
}

fn write_refusals<W: Write>(err: &mut W, refusals: u64) -> io::Result<()>
    ensures { OnOk result
        (Appends (W.contents err.old) (W.contents err.new) (refusals_reason_of refusals)) }
{
    if refusals == 0 {
        return Ok(());
    }
    write!(err, "bokzarn: refused: {refusals}\n")
}

fn write_foreign<W: Write>(err: &mut W, at: u64) -> io::Result<()>
    ensures { OnOk result
        (Appends (W.contents err.old) (W.contents err.new) (foreign_reason_of at)) }
{
    if at == 0 {
        return write!(
            err,
            "bokzarn: at byte 0 of the file stands no header of a warehouse\n"
        );
    }
    write!(
        err,
        "bokzarn: at byte {at} of the file stands no whole commit that applies\n"
    )
}

fn write_ending<W: Write>(err: &mut W, ending: &Ending, code: u8) -> io::Result<()>
    requires { code ≡ code_of (status_of ending.now) }
    ensures { OnOk result
        (Appends (W.contents err.old) (W.contents err.new) (report_of ending.now)) }
{
    write_reason(err, ending)?;
    writeln!(err, "status {code}")
}

/// Writes how the program ends, and gives the exit code.
pub(crate) fn report<W: Write>(err: &mut W, ending: &Ending) -> (ExitCode, io::Result<()>)
    ensures code { exit_status result.0 ≡ code_of (status_of ending.now) }
    ensures text { OnOk result.1
        (Appends (W.contents err.old) (W.contents err.new) (report_of ending.now)) }
{
    let code = ending.status().code();
    (ExitCode::from(code), write_ending(err, ending, code))
}
