//! A command line's words.

ghost use Rattle.std.specs.Prelude.{◌≡◌};
ghost use Rattle.auth_cli.specs.Commands.{command};

use auth_text::Bytes;

/// A word of a command line.
pub type Word = Bytes;

/// What a command line asks for.
#[derive(Clone, Copy, Debug, PartialEq, Eq)]
pub enum Command {
    /// Reads a session and writes how much it asks for.
    Check,
    /// Reads a session, serves its requests in order by one caller, and writes the report.
    Alone,
}

/// The command that the words are, where they are one.
pub(crate) fn command_of(words: &[Word]) -> Option<Command>
    ensures { result ≡ command words.now }
{
    let [word] = words else {
        return None;
    };
    if word.as_slice() == b"check".as_slice() {
        return Some(Command::Check);
    }
    if word.as_slice() == b"alone".as_slice() {
        return Some(Command::Alone);
    }
    None
}
