//! Heads of requests: written, read back, and refused.

use auth_text::{Bytes, NoMemory};
use spaces::{Method, Origin};
use std::alloc::Global;
use std::test::Fail;
use wire_head::{HeadFault, HeadParts, read_head, write_head};

const TO_A_PROXY: &[u8] =
    b"GET http://a.example/x HTTP/1.1\r\nHost: a.example\r\nProxy-Authorization: Basic cHU6cHA=\r\nAuthorization: Basic c3U6c3A=\r\nConnection: close\r\n\r\n";

const TO_A_PORT: &[u8] = b"HEAD / HTTP/1.1\r\nHost: [::1]:8080\r\nConnection: keep-alive\r\n\r\n";

fn origin(alloc: Global, host: &[u8], port: u16) -> Result<Origin, NoMemory> {
    let host = Bytes::from_slice(alloc, host)?;
    Ok(Origin { host, port })
}

#[test]
fn heads_are_written(rt: HostRuntime) -> Result<(), Fail> {
    let alloc = rt.alloc();
    let origin_of_name = origin(alloc, b"a.example", 80)?;
    let parts = HeadParts {
        method: Method::Get,
        target: b"http://a.example/x",
        origin: &origin_of_name,
        proxy: Some(b"Basic cHU6cHA="),
        server: Some(b"Basic c3U6c3A="),
        keep: false,
    };
    let head = write_head(alloc, &parts)?;
    assert_eq!(rt; head.as_slice(), TO_A_PROXY);
    let origin_of_address = origin(alloc, b"[::1]", 8080)?;
    let parts = HeadParts {
        method: Method::Head,
        target: b"/",
        origin: &origin_of_address,
        proxy: None,
        server: None,
        keep: true,
    };
    let head = write_head(alloc, &parts)?;
    assert_eq!(rt; head.as_slice(), TO_A_PORT);
    Ok(())
}

#[test]
fn heads_are_read(rt: HostRuntime) -> Result<(), Fail> {
    let text =
        b"HEAD http://[::1]:8080/x HTTP/1.1\r\nHost: [::1]:8080\r\nProxy-Authorization: Basic cHU6cHA=\r\nConnection: keep-alive\r\n\r\nGET";
    let head = read_head(rt.alloc(), text)?;
    assert!(rt; head.method == Method::Head && head.keep && head.length == 116);
    assert_eq!(rt; head.target.as_slice(), b"http://[::1]:8080/x".as_slice());
    assert_eq!(rt; head.origin.host.as_slice(), b"[::1]".as_slice());
    assert_eq!(rt; head.origin.port, 8080);
    let Some(proxy) = &head.proxy else {
        assert!(rt; false);
        return Ok(());
    };
    assert_eq!(rt; proxy.as_slice(), b"Basic cHU6cHA=".as_slice());
    assert!(rt; head.server.is_none());
    Ok(())
}

const REFUSED: &[(&[u8], HeadFault)] = &[
    (b"", HeadFault::Unfinished),
    (b"\r\n", HeadFault::Unfinished),
    (b"\r\nGET", HeadFault::Unfinished),
    (b"\r\n\r\n", HeadFault::NotOurs),
    (
        b"GET / HTTP/1.1\r\nHost: h\r\nConnection: close\r\n",
        HeadFault::Unfinished,
    ),
    (
        b"GET / HTTP/1.1\r\nHost: h:80\r\nConnection: close\r\n\r\n",
        HeadFault::NotOurs,
    ),
    (
        b"GET / HTTP/1.1\r\nHost: h:65536\r\nConnection: close\r\n\r\n",
        HeadFault::NotOurs,
    ),
    (
        b"GET / HTTP/1.0\r\nHost: h\r\nConnection: close\r\n\r\n",
        HeadFault::NotOurs,
    ),
];

#[test]
fn other_heads_are_refused(rt: HostRuntime) -> Result<(), Fail> {
    for (text, want) in REFUSED {
        let Err(fault) = read_head(rt.alloc(), text) else {
            assert!(rt; false, "{}", text.escape_ascii());
            return Ok(());
        };
        assert_eq!(rt; fault, *want);
    }
    Ok(())
}
