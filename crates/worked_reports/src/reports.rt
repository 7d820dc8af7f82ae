//! One small report, some changes of it after which it is still one, and damages of one line.

use crate::echo::{MOST_BYTES, written_again};
use crate::rows::EVERY_ROW;
use auth_report::ReportFault;
use auth_text::{Bytes, NoMemory};
use std::alloc::Global;
use std::test::Fail;

const LINES: [&str; 12] = [
    "authreport 1\n",
    "seed 0000000000000000000000000000000000000000000000000000000000000000\n",
    "request 1 GET main http://a/ -\n",
    "space 1 main server a:80 digest d\n",
    "terms 1 1 1 MD5 said auth n noopaque\n",
    "text 1 u p\n",
    "e 1 1 begin = begun\n",
    "e 1 1 end = ended\n",
    "t 1 call\n",
    "t 1 call\n",
    "t 1 outcome nomemory\n",
    "end\n",
];

// The number of a line, what stands in its place, and the line at fault then; none, where the text
// is still a report.
const CHANGED: [(usize, &str, Option<u32>); 42] = [
    (13, "", None),
    (
        4,
        "space 1 main server a:80 digest d\nspace 2 main socks :0 password -\n",
        None,
    ),
    (
        9,
        "t 1 reply 1 401 open 0 info -\nt 1 reply 1 200 close 1 info a info - proxyinfo %2D\nt 1 call\n",
        None,
    ),
    (6, "", None),
    (6, "text 1 u p\ntext 2 u p\n", None),
    (11, "t 1 outcome answered 0\n", None),
    (11, "t 1 outcome refused 401 nochallenge\n", None),
    (11, "t 1 outcome refused 407 rounds\n", None),
    (11, "t 1 outcome refused 65535 boundlost\n", None),
    (11, "t 1 outcome badreply head\n", None),
    (11, "t 1 outcome linkfailed 18446744073709551615\n", None),
    (11, "t 1 outcome providerfailed 1\n", None),
    (11, "t 1 outcome promptfailed 0\n", None),
    (1, "authreport 2\n", Some(1)),
    (1, "", Some(1)),
    (2, "seed 00\n", Some(2)),
    (3, "", Some(3)),
    (3, "request 2 GET main http://a/ -\n", Some(3)),
    (3, "request 1 GET main http://a -\n", Some(3)),
    (4, "space 1 main server a:080 digest d\n", Some(4)),
    (4, "space 1 main server a:80 negotiate d\n", Some(4)),
    (4, "space 1 main socks :0 password -\n", Some(5)),
    (
        4,
        "space 1 main server a:80 digest d\nspace 2 main server a:80 digest d\n",
        Some(5),
    ),
    (5, "terms 1 1 2 MD5 said auth n noopaque\n", Some(5)),
    (5, "terms 1 2 1 MD5 said auth n noopaque\n", Some(5)),
    (
        5,
        "terms 1 1 1 MD5 said auth n noopaque userhash userhash\n",
        Some(5),
    ),
    (6, "text 1 %75 p\n", Some(6)),
    (6, "text 1 u:u p\n", Some(6)),
    (7, "e 01 1 begin = begun\n", Some(7)),
    (7, "e 4294967296 1 begin = begun\n", Some(7)),
    (7, "e 1 2 begin = begun\n", Some(7)),
    (8, "e 1 1 end = begun\n", Some(8)),
    (8, "", Some(9)),
    (
        9,
        "t 1 reply 1 200 close 0 proxyinfo a info b\nt 1 call\n",
        Some(9),
    ),
    (9, "t 1 call\r\n", Some(9)),
    (10, "", Some(10)),
    (10, "t 1 call\nt 1 call\n", Some(11)),
    (11, "", Some(11)),
    (11, "t 1 outcome refused 401\n", Some(11)),
    (12, "", Some(12)),
    (12, "end", Some(12)),
    (12, "end\nend\n", Some(13)),
];

/// The report with other bytes in place of its line of that number, from 1.
fn with_line(alloc: Global, number: usize, other: &str) -> Result<Bytes, NoMemory> {
    let mut text = Bytes::new(alloc);
    for (i, line) in LINES.iter().enumerate() {
        let line = if i + 1 == number { other } else { line };
        text.extend_from_slice(line.as_bytes())?;
    }
    Ok(text)
}

/// The line at fault; none, where the same text was written again.
fn fault_in(alloc: Global, text: &[u8]) -> Result<Option<u32>, Fail> {
    if text.len() > MOST_BYTES {
        return Err("too long".into());
    }
    match written_again(alloc, text) {
        Ok(again) if again.as_slice() == text => Ok(None),
        Ok(_) => Err("another text".into()),
        Err(ReportFault::BadLine { line }) => Ok(Some(line)),
        Err(ReportFault::NoMemory) => Err("memory".into()),
    }
}

#[test]
fn every_row_reads_back(rt: HostRuntime) -> Result<(), Fail> {
    let at = fault_in(rt.alloc(), EVERY_ROW.as_bytes())?;
    assert_eq!(rt; at, None);
    Ok(())
}

#[test]
fn changed_lines(rt: HostRuntime) -> Result<(), Fail> {
    for (number, other, expected) in CHANGED {
        let text = with_line(rt.alloc(), number, other)?;
        let at = fault_in(rt.alloc(), text.as_slice())?;
        assert!(rt; at == expected, "{at:?} for {number} {other:?}");
    }
    Ok(())
}
