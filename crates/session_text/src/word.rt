//! Words: the form in which a value of any bytes stands in a line. A word is never empty and holds
//! no space and no line end, so that a line can be cut into its words.

ghost use Rattle.std.specs.Prelude.{◌≡◌, ◌<◌, ℕ, List, IfOk, All, string_bytes};
ghost use Rattle.std.specs.List.{flat_map};
ghost use Rattle.session_text.specs.Words.{word_of, word_value, escaped};

use auth_text::{Bytes, NoMemory};
use percent_encoding::{AsciiSet, CONTROLS, ascii_set, percent_decode, percent_encode};
use std::alloc::{AllocError, Global};

/// What a word escapes beside the bytes past ASCII.
const ESCAPED: AsciiSet = ascii_set!(CONTROLS.add(b' ').add(b'%'));

fn escape(alloc: Global, value: &[u8]) -> Result<String, AllocError>
    ensures { IfOk result (λ text. string_bytes text ≡ flat_map escaped value.now) }
{
    let mut text = String::new(alloc);
    percent_encode(value, ESCAPED).append_to(&mut text)?;
    Ok(text)
}

/// The word of a value: `-` for the empty value, `%2D` for the value `-`, else the value with the
/// bytes 0 to 32, 37 and 127 to 255 escaped as `%` and two upper-case hexadecimal digits.
pub fn write_word(alloc: Global, value: &[u8]) -> Result<Bytes, NoMemory>
    ensures { IfOk result (λ word. word ≡ word_of value.now) }
{
    match value {
        [] => Bytes::from_slice(alloc, b"-"),
        b"-" => Bytes::from_slice(alloc, b"%2D"),
        _ => {
            let text = escape(alloc, value)?;
            Bytes::from_slice(alloc, text.as_bytes())
        }
    }
}

/// The value of a word: nothing for `-`, else its bytes with each `%` and two hexadecimal digits
/// decoded. A `%` that no two such digits follow stays as it is.
pub fn read_word(alloc: Global, word: &[u8]) -> Result<Bytes, NoMemory>
    ensures { IfOk result (λ value. value ≡ word_value word.now) }
{
    if word == b"-".as_slice() {
        return Ok(Bytes::new(alloc));
    }
    let mut value = Bytes::new(alloc);
    for byte in percent_decode(word) {
        value.push(byte)?;
    }
    Ok(value)
}

/// The law of words: the word of a value reads back as that value.
pub fn word_law()
    ensures { (value : List ℕ) → All (λ b. b < 256) value → word_value (word_of value) ≡ value }
{}
