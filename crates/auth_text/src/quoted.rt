//! Quoted strings, both ways. Realms and nonces come in them and go out in them, so a value must
//! read back as it was written, whatever bytes it has.

ghost use Rattle.std.specs.Prelude.{◌≡◌, ◌++◌, ℕ, List, Ok, length, IfOk, OnOk, OnErr};
ghost use Rattle.auth_text.specs.Gives.{GivesBy};
ghost use Rattle.auth_text.specs.Quoted.{quoted, quoted_text, escaped_byte};

use crate::items::{Bytes, NoMemory};
use std::alloc::Global;
use thiserror::Error;

/// Why no quoted string was read.
#[derive(Clone, Copy, Debug, PartialEq, Eq, Error)]
pub enum QuoteFault {
    /// The first byte isn't `"`.
    #[error("no quoted string")]
    NotQuoted,
    /// No closing `"` follows.
    #[error("no closing quote")]
    Unclosed,
    /// There was no memory for the value.
    #[error("no memory")]
    NoMemory,
}

/// Reads a quoted string at the front of `text` (RFC 7230 section 3.2.6), and answers its value
/// without the backslashes of its escapes, and its length in bytes with both quotes. What follows
/// the closing quote plays no part. Any byte may stand between the quotes, control bytes too.
pub fn read_quoted(alloc: Global, text: &[u8]) -> Result<(Bytes, usize), QuoteFault>
    ensures { GivesBy QuoteFault.NoMemory (λ x. x) result (quoted text.now) }
{
    let [b'"', body @ ..] = text else {
        return Err(QuoteFault::NotQuoted);
    };
    let mut value = Bytes::new(alloc);
    let mut is_escaped = false;
    for (i, b) in body.iter().enumerate() {
        if !is_escaped && *b == b'\\' {
            is_escaped = true;
        } else if !is_escaped && *b == b'"' {
            return Ok((value, i + 2));
        } else {
            if value.push(*b).is_err() {
                return Err(QuoteFault::NoMemory);
            }
            is_escaped = false;
        }
    }
    Err(QuoteFault::Unclosed)
}

/// Appends the quoted string of `value`: `\` stands before each `"` and `\` of it, and before no
/// other byte. After want of memory `out` is as before.
pub fn push_quoted(out: &mut Bytes, value: &[u8]) -> Result<(), NoMemory>
    ensures ok { OnOk result (out.new ≡ out.old ++ quoted_text value.now) }
    ensures err { OnErr result (out.new ≡ out.old) }
{
    let len = out.len();
    match push_parts(out, value) {
        Ok(()) => Ok(()),
        Err(e) => {
            out.truncate(len);
            Err(e)
        }
    }
}

fn push_parts(out: &mut Bytes, value: &[u8]) -> Result<(), NoMemory>
    ensures ok { OnOk result (out.new ≡ out.old ++ quoted_text value.now) }
    ensures front { (more : List ℕ) × (out.new ≡ out.old ++ more) }
{
    out.push(b'"')?;
    for b in value {
        if *b == b'"' || *b == b'\\' {
            out.push(b'\\')?;
        }
        out.push(*b)?;
    }
    out.push(b'"')?;
    Ok(())
}

/// The law of the two: the quoted string of a value reads as that value, whatever follows it. The
/// body is empty, since the contract is all that there is to it.
pub fn quoted_reads_back()
    ensures { (value more : List ℕ)
        → quoted (quoted_text value ++ more) ≡ Ok (value, length (quoted_text value)) }
{}

#[cfg(test)]
mod tests {
    use super::*;
    use std::test::Fail;

    #[test]
    fn reads_quoted_strings(rt: HostRuntime) -> Result<(), Fail> {
        // The first is the realm of RFC 7617 section 2, the others follow RFC 7230 section 3.2.6.
        let table: [(&[u8], &[u8], usize); 5] = [
            (b"\"WallyWorld\"", b"WallyWorld", 12),
            (b"\"\", x", b"", 2),
            (b"\"a\\\"b\", realm=c", b"a\"b", 6),
            (b"\"a\\\\\"\"", b"a\\", 5),
            (b"\"\\a\x80\"", b"a\x80", 5),
        ];
        for (text, value, len) in table {
            let read = read_quoted(rt.alloc(), text)?;
            assert_eq!(rt; read.0.as_slice(), value);
            assert_eq!(rt; read.1, len);
        }
        Ok(())
    }

    #[test]
    fn refuses_what_is_no_quoted_string(rt: HostRuntime) {
        let table: [(&[u8], QuoteFault); 5] = [
            (b"", QuoteFault::NotQuoted),
            (b"x\"y\"", QuoteFault::NotQuoted),
            (b"\"", QuoteFault::Unclosed),
            (b"\"x", QuoteFault::Unclosed),
            (b"\"x\\\"", QuoteFault::Unclosed),
        ];
        for (text, fault) in table {
            let read = read_quoted(rt.alloc(), text);
            assert!(rt; matches!(&read, Err(e) if *e == fault));
        }
    }

    #[test]
    fn writes_quoted_strings(rt: HostRuntime) -> Result<(), Fail> {
        let mut out = Bytes::new(rt.alloc());
        push_quoted(&mut out, b"a, b").map_err(|_| "memory")?;
        push_quoted(&mut out, b"\\\"").map_err(|_| "memory")?;
        assert_eq!(rt; out.as_slice(), b"\"a, b\"\"\\\\\\\"\"".as_slice());
        Ok(())
    }
}
