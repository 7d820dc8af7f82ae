//! A book of credentials as its callers know it, whatever it finds its replies by.

use crate::journal::{BookReply, Call, Gift, Journal};
use crate::names::Names;
use auth_text::{Identity, NoMemory};
use spaces::{Space, Terms};

/// What a call did: its reply, and the number of the nonce that its entry took out of a live space,
/// or 0.
#[derive(Clone, Copy, Debug, PartialEq, Eq)]
pub struct Did {
    pub reply: BookReply,
    pub retired: u32,
}

/// The number of terms, and that of their nonce.
#[derive(Clone, Copy, Debug, PartialEq, Eq)]
pub struct TermsRef {
    pub terms: u32,
    pub nonce: u32,
}

/// A book of credentials. It is known by its roster, by the list that it tells, and by its names.
pub trait Controller {
    ghost use Rattle.std.specs.Prelude.{List, ◌≡◌, ◌≤◌, ◌++◌, ◌∷◌, [], IsTrue, OnErr, IfOk, OnOk};
    ghost use Rattle.std.specs.Prelude.{◌+◌, ◌<◌, ◌*◌, length, Some, is_some, option_map};
    ghost use Rattle.spaces.specs.declared.roster.Roster.{Roster};
    ghost use Rattle.spaces.specs.Sites.{numbered};
    ghost use Rattle.auth_events.specs.declared.told.Told.{Told};
    ghost use Rattle.auth_events.specs.declared.told.Told.TheVariants.{TextNamed};
    ghost use Rattle.auth_events.specs.Tables.{Tables, AreNames, AreFew, is_home};
    ghost use Rattle.auth_events.specs.Book.{allowed, answer, IsLegal};
    ghost use Rattle.auth_events.specs.Identities.{giving, identity};
    ghost use Rattle.auth_events.specs.Told.{IsLegalThroughout, journal, past, names_told};
    ghost use Rattle.auth_events.specs.Told.{has_no_draw, told_after, retired_by, told_space};
    ghost use Rattle.auth_events.specs.Told.{told_terms, MayNameSpace, MayNameTerms};

    /// The requests that it serves.
    ghost roster: { Self → Roster };

    /// Its entries and its new names, in the order in which they were made.
    ghost told: { Self → List Told };

    /// What its numbers stand for.
    ghost names: { Self → Tables };

    /// Answers the call and adds its entry, unless the answer is `Pending`. It takes no memory.
    fn call(&mut self, caller: u32, request: u32, call: Call) -> Did
        requires { IsTrue (allowed
            (roster self.old) (names self.old) (past (told self.old)) caller request call) }
        ensures reply { result.reply
            ≡ answer (roster self.old) (names self.old) (past (told self.old)) request call }
        ensures told { told self.new ≡ told_after (told self.old)
            (record { caller = caller; request = request; call = call; reply = result.reply }) }
        ensures retired { result.retired ≡ retired_by (names self.old) (past (told self.old))
            (record { caller = caller; request = request; call = call; reply = result.reply }) }
        ensures roster { roster self.new ≡ roster self.old }
        ensures names { names self.new ≡ names self.old };

    /// The number of the space, which is named where it has none. An `Err` changes nothing.
    fn space_no(&mut self, caller: u32, space: &Space) -> Result<u32, NoMemory>
        requires { MayNameSpace (roster self.old) (names self.old) space.now }
        ensures number { IfOk result (λ number. numbered (names self.new).spaces number
            ≡ Some space.now) }
        ensures told { OnOk result (told self.new
            ≡ told_space caller (names self.old) (told self.old) space.now) }
        ensures told_err { OnErr result (told self.new ≡ told self.old) }
        ensures names_err { OnErr result (names self.new ≡ names self.old) }
        ensures roster { roster self.new ≡ roster self.old };

    /// The number of the space's terms, which are named where they have none, and that of their
    /// nonce. An `Err` changes nothing.
    fn terms_no(&mut self, caller: u32, space: u32, terms: &Terms) -> Result<TermsRef, NoMemory>
        requires home { IsTrue (is_home (names self.old) space terms.now) }
        requires few { MayNameTerms (roster self.old) (names self.old) space terms.now }
        ensures number { IfOk result (λ numbers. numbered (names self.new).terms numbers.terms
            ≡ Some (record { space = space; terms = terms.now; nonce = numbers.nonce })) }
        ensures told { OnOk result (told self.new
            ≡ told_terms caller (names self.old) (told self.old) space terms.now) }
        ensures told_err { OnErr result (told self.new ≡ told self.old) }
        ensures names_err { OnErr result (names self.new ≡ names self.old) }
        ensures roster { roster self.new ≡ roster self.old };

    /// The next number of a text, which stands for the identity. An `Err` changes nothing.
    fn text_no(&mut self, caller: u32, identity: &Identity) -> Result<u32, NoMemory>
        requires { length (names self.old).texts < 64 * length (roster self.old).requests }
        ensures number { IfOk result (λ number. number ≡ length (names self.old).texts + 1) }
        ensures told { OnOk result (told self.new
            ≡ told self.old ++ TextNamed caller identity.now ∷ []) }
        ensures told_err { OnErr result (told self.new ≡ told self.old) }
        ensures names_err { OnErr result (names self.new ≡ names self.old) }
        ensures roster { roster self.new ≡ roster self.old };

    /// The identity that the gift stands for.
    fn identity_of(&self, gift: Gift) -> Result<Identity, NoMemory>
        requires { IsTrue (is_some (giving (past (told self.now)) gift)) }
        ensures { IfOk result
            (λ found. identity (roster self.now) (names self.now) (past (told self.now)) gift
            ≡ Some found) };

    /// The terms of that number, and the number of their nonce.
    fn terms_of(&self, terms: u32) -> Result<(Terms, u32), NoMemory>
        requires { IsTrue (is_some (numbered (names self.now).terms terms)) }
        ensures { IfOk result (λ found.
            option_map (λ name. (name.terms, name.nonce)) (numbered (names self.now).terms terms)
            ≡ Some found) };

    /// The space of that number.
    fn space_of(&self, space: u32) -> Result<Space, NoMemory>
        requires { IsTrue (is_some (numbered (names self.now).spaces space)) }
        ensures { IfOk result (λ found. numbered (names self.now).spaces space ≡ Some found) };

    /// Its entries.
    fn journal(&self) -> &Journal
        ensures entries { result.now.entries ≡ journal (told self.now) }
        ensures requests { result.now.requests ≡ length (roster self.now).requests };

    /// Its names.
    fn names(&self) -> &Names
        ensures { result.now ≡ names self.now };

    /// The journal of what it tells is legal.
    ghost legal: { (book : Self) → IsLegal (roster book) (names book) (journal (told book)) };

    /// What it told first is legal under the names that it told by then: each thing was named
    /// before an entry used its number.
    ghost legal_throughout: { (book : Self) → IsLegalThroughout (roster book) (told book) };

    /// Draws are no entries of a book.
    ghost no_draw: { (book : Self) → IsTrue (has_no_draw (told book)) };

    /// Its names are those that it told.
    ghost told_names: { (book : Self) → names_told (told book) ≡ names book };

    /// Its names are one-to-one, terms stand in their spaces, and nonce numbers rise.
    ghost are_names: { (book : Self) → AreNames (names book) };

    /// The limits of names hold.
    ghost few: { (book : Self) → AreFew (length (roster book).requests) (names book) };
}
