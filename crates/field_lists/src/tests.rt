use crate::{blank_len, elements, elements_of, is_blank, trim_end, trim_start};
use auth_text::{Bytes, Items};
use std::test::Fail;

// The values of RFC 7230, section 7, and a tab; each with its elements, one byte between them.
const LISTS: [(&[u8], &[u8]); 7] = [
    (b"foo,bar", b"foo|bar"),
    (b"foo ,bar,", b"foo|bar"),
    (b"foo , ,bar,charlie   ", b"foo|bar|charlie"),
    (b"", b""),
    (b",", b""),
    (b",   ,", b""),
    (b"\tfoo bar\t,\t", b"foo bar"),
];

fn joined(rt: HostRuntime, items: &Items<Bytes>) -> Result<Bytes, Fail> {
    let mut text = Bytes::new(rt.alloc());
    for item in items.as_slice() {
        if !text.is_empty() {
            text.extend_from_slice(b"|").map_err(|_| "memory")?;
        }
        text.extend_from_slice(item.as_slice())
            .map_err(|_| "memory")?;
    }
    Ok(text)
}

#[test]
fn lists_have_elements(rt: HostRuntime) -> Result<(), Fail> {
    let mut values = Items::new(rt.alloc());
    for (value, wanted) in LISTS {
        let items = elements_of(rt.alloc(), value).map_err(|_| "memory")?;
        assert_eq!(rt; joined(rt, &items)?.as_slice(), wanted);
        values.push(Bytes::from_slice(rt.alloc(), value).map_err(|_| "memory")?)?;
    }
    let all = elements(rt.alloc(), values.as_slice()).map_err(|_| "memory")?;
    assert_eq!(rt;
        joined(rt, &all)?.as_slice(),
        b"foo|bar|foo|bar|foo|bar|charlie|foo bar".as_slice()
    );
    Ok(())
}

#[test]
fn blanks_are_spaces_and_tabs(rt: HostRuntime) {
    assert!(rt; is_blank(b' ') && is_blank(b'\t') && !is_blank(b'\n'));
    assert_eq!(rt; blank_len(b" \t a "), 3);
    assert_eq!(rt; trim_start(b" \ta "), b"a ".as_slice());
    assert_eq!(rt; trim_end(b" a \t"), b" a".as_slice());
}
