//! How a command ends.

ghost use Rattle.std.specs.Prelude.{◌≡◌};
ghost use Rattle.auth_cli.specs.Statuses.{refused};

use session_text::{SessionFault, What};

/// How a command ends.
#[derive(Clone, Copy, Debug, PartialEq, Eq)]
pub enum Status {
    /// The input was read to its end, and the whole text was written.
    Done,
    /// The words are no command.
    Usage,
    /// The line, counted from 1, is the first one at fault.
    BadSession { line: u32 },
    /// The input failed.
    ReadFault,
    /// The output failed; a front of the text was written.
    WriteFault,
    /// There was no memory; nothing or a front of the text was written.
    NoMemory,
    /// There are more bytes, requests or workers than a session may have: 4,194,305 bytes, 2,049
    /// requests, or that many workers.
    TooLarge { what: What, number: u32 },
    /// There are more workers than gears.
    TooFewGears { asked: u32, given: u32 },
}

/// The status of a text that is no session.
pub(crate) fn refused(fault: SessionFault) -> Status
    ensures { result ≡ refused fault }
{
    match fault {
        SessionFault::BadLine { line } => Status::BadSession { line },
        SessionFault::TooMany { what, number } => Status::TooLarge { what, number },
        SessionFault::NoMemory => Status::NoMemory,
    }
}
