//! The values of a line's words, and numbers.

ghost use Rattle.std.specs.Prelude.{◌≡◌, ◌≤◌, ◌++◌, ◌∷◌, [], length, OnOk, IfErr, Ok, true};
ghost use Rattle.std.specs.List.{list_all};
ghost use Rattle.std.specs.Char.{is_ascii_digit};
ghost use Rattle.auth_text.specs.Gives.{GivesBy};
ghost use Rattle.session_text.specs.Words.{word_value};
ghost use Rattle.session_text.specs.Forms.{number_of};
ghost use Rattle.session_text.specs.Cuts.{number, values, is_numeral};

use crate::cut::first_len;
use crate::line::LineFault;
use crate::word::read_word;
use auth_text::{Bytes, Items, are_digits, front_of, rest_of};
use std::alloc::Global;

fn is_numeral(word: &[u8]) -> bool
    ensures { result ≡ is_numeral word.now }
{
    !word.is_empty() && word.len() <= 6 && are_digits(word) && (word.len() == 1 || word[0] != b'0')
}

/// The number of a numeral.
fn digits_value(word: &[u8]) -> u32
    requires few { length word.now ≤ 6 }
    requires digits { list_all is_ascii_digit word.now ≡ true }
    ensures { result ≡ number word.now }
{
    let mut n: u32 = 0;
    for b in word {
        prove!(b.is_ascii_digit());
        n = n * 10 + (*b - b'0') as u32;
    }
    n
}

fn value_of(alloc: Global, word: &[u8]) -> Result<Bytes, LineFault>
    ensures { GivesBy LineFault.NoMemory (λ v. v) result (Ok (word_value word.now)) }
{
    match read_word(alloc, word) {
        Ok(value) => Ok(value),
        Err(_) => Err(LineFault::NoMemory),
    }
}

fn push_value(values: &mut Items<Bytes>, value: Bytes) -> Result<(), LineFault>
    ensures ok { OnOk result (values.new ≡ values.old ++ value ∷ []) }
    ensures err { IfErr result (λ e. e ≡ LineFault.NoMemory) }
{
    match values.push(value) {
        Ok(()) => Ok(()),
        Err(_) => Err(LineFault::NoMemory),
    }
}

/// The values of a line's words; a line with an empty word has none.
pub fn values_of(alloc: Global, text: &[u8]) -> Result<Items<Bytes>, LineFault>
    ensures { GivesBy LineFault.NoMemory (λ v. v) result (values text.now) }
{
    let mut values = Items::new(alloc);
    let mut rest = text;
    'words: loop {
        let n = first_len(rest, b' ');
        if n == 0 {
            return Err(LineFault::Bad);
        }
        let value = value_of(alloc, front_of(rest, n))?;
        push_value(&mut values, value)?;
        if n == rest.len() {
            return Ok(values);
        }
        rest = rest_of(rest, n + 1);
    }
}

/// The number that a value is: 1 to 6 digits, and no leading zero.
pub fn number_of(word: &[u8]) -> Result<u32, LineFault>
    ensures { result ≡ number_of word.now }
{
    if !is_numeral(word) {
        return Err(LineFault::Bad);
    }
    Ok(digits_value(word))
}
