//! Words, both ways. What is escaped, and that reading is lenient, is by `docs/FORMATS.md`.

use session_text::{read_word, write_word};
use std::test::Fail;

// Each value with the word that is written for it.
const WRITTEN: [(&[u8], &[u8]); 7] = [
    (b"", b"-"),
    (b"-", b"%2D"),
    (b"--", b"--"),
    (b"open sesame", b"open%20sesame"),
    (b"50%", b"50%25"),
    (b"%2s", b"%252s"),
    (b"\x00\x1f\x7f\xff~!", b"%00%1F%7F%FF~!"),
];

#[test]
fn words_are_written_and_read(rt: HostRuntime) -> Result<(), Fail> {
    for (value, word) in &WRITTEN {
        let written = write_word(rt.alloc(), *value)?;
        assert_eq!(rt; written.as_slice(), *word);
        let read = read_word(rt.alloc(), *word)?;
        assert_eq!(rt; read.as_slice(), *value);
    }
    Ok(())
}

// Each word that is never written so, with the value that it is read as.
const LENIENT: [(&[u8], &[u8]); 6] = [
    (b"%zz", b"%zz"),
    (b"%2s", b"%2s"),
    (b"a%4", b"a%4"),
    (b"%", b"%"),
    (b"%2d%41", b"-A"),
    (b"%25%32s", b"%2s"),
];

#[test]
fn other_words_are_read(rt: HostRuntime) -> Result<(), Fail> {
    for (word, value) in &LENIENT {
        let read = read_word(rt.alloc(), *word)?;
        assert_eq!(rt; read.as_slice(), *value);
    }
    Ok(())
}
