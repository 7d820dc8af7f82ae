//! The words of one caller: what the draws of nonces gave, without a thread in sight.

ghost use Rattle.std.specs.Prelude.{◌≡◌, ◌≤◌, ◌<◌, ◌+◌, ◌^◌, ℕ, List, Some, IfOk, All, length};
ghost use Rattle.std.specs.Prelude.{replicate, count_by};
ghost use Rattle.spaces.specs.Sites.{numbered};
ghost use Rattle.plain_book.specs.Words.{Step, draws_of, is_draw, is_retirement, nonce_in};
ghost use Rattle.plain_book.specs.Words.{retirements_of, unused, with_draw, with_retirement};
ghost use Rattle.plain_book.specs.Words.{words_after};

use auth_events::Drawn;
use auth_text::NoMemory;
use std::alloc::Global;
use std::marker::Model;

/// For each nonce how often it was drawn and how often it was retired. Seen as the list of these
/// two numbers, in order of the nonces' numbers.
#[derive(Debug, Drop)]
pub struct PlainWords {
    words: Vec<Drawn>,
}

impl Model for PlainWords {
    ghost use Rattle.std.specs.Prelude.{List, length, ◌≤◌};
    ghost use Rattle.auth_events.specs.declared.journal.Drawn.{Drawn};

    ghost Value = { List Drawn };

    ghost view = { λ w. w.words.items };

    ghost invariant = { λ w. length w.words.items ≤ 32768 };
}

impl PlainWords {
    /// Words of the nonces from 1 to this number, none of which was drawn or retired.
    pub fn new(alloc: Global, nonces: u32) -> Result<PlainWords, NoMemory>
        requires { nonces ≤ 32768 }
        ensures { IfOk result (λ words. words ≡ replicate nonces unused) }
    {
        let unused = Drawn { count: 0, epoch: 0 };
        let words = vec![in alloc; unused; nonces as usize]?;
        Ok(PlainWords { words })
    }

    /// How many nonces there are.
    pub fn nonces(&self) -> u32
        ensures nonces { result ≡ length self.now }
        ensures few { length self.now ≤ 32768 }
    {
        self.words.len() as u32
    }

    /// Draws the nonce: the count is the number of its draws, this one among them, and the epoch is
    /// that of its retirements.
    pub fn draw(&mut self, nonce: u32) -> Drawn
        requires nonce { (1 ≤ nonce) × (nonce ≤ length self.old) }
        requires few { draws_of self.old nonce < 2 ^ 30 }
        ensures drawn { result ≡ record {
          count = draws_of self.old nonce + 1;
          epoch = retirements_of self.old nonce;
        } }
        ensures words { self.new ≡ with_draw self.old nonce }
    {
        let at = nonce as usize - 1;
        let word = self.words[at];
        let drawn = Drawn {
            count: word.count + 1,
            epoch: word.epoch,
        };
        self.words[at] = drawn;
        drawn
    }

    /// Retires the nonce.
    pub fn retire(&mut self, nonce: u32)
        requires nonce { (1 ≤ nonce) × (nonce ≤ length self.old) }
        requires few { retirements_of self.old nonce < 2 ^ 31 }
        ensures { self.new ≡ with_retirement self.old nonce }
    {
        let at = nonce as usize - 1;
        let word = self.words[at];
        self.words[at] = Drawn {
            count: word.count,
            epoch: word.epoch + 1,
        };
    }
}

/// After any draws and retirements, the nonces numbered from 1, the word of each nonce has the
/// number of its draws and that of its retirements.
pub fn words_count_steps()
    ensures { (nonces n : ℕ) (steps : List Step) → 1 ≤ n → n ≤ nonces
        → All (λ step. 1 ≤ nonce_in step) steps → numbered (words_after nonces steps) n
        ≡ Some (record {
          count = count_by (is_draw n) steps;
          epoch = count_by (is_retirement n) steps;
        }) }
{}
