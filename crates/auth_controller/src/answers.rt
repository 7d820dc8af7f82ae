//! What the book and the words tell a request's machine, need by need, for a request that one
//! caller serves.

ghost use Rattle.std.specs.Prelude.{◌≡◌, ◌≢◌, Some};
ghost use Rattle.request_machine.specs.Needs.{need_at};
ghost use Rattle.request_machine.specs.Rooms.{HasSetting};
ghost use Rattle.auth_controller.specs.Answering.{HasServing, HasServingBy, IsGiven, IsGivenAs};
ghost use Rattle.auth_controller.specs.Answering.{IsServedOn, IsServedOnBy, identity_given};
ghost use Rattle.auth_controller.specs.Answering.{number_given, numbers_given, space_given};
ghost use Rattle.auth_controller.specs.Answering.{terms_given};

use crate::calls::call;
use auth_events::{Call, Controller, Gift, TermsRef};
use auth_text::{Identity, NoMemory};
use plain_book::PlainWords;
use request_machine::{Gave, Machine, Need};
use spaces::{Space, Terms};

/// The number of a space or a text, where there was memory.
fn number_given(told: Result<u32, NoMemory>) -> Gave
    ensures { result ≡ number_given told }
{
    match told {
        Ok(number) => Gave::Number(number),
        Err(NoMemory) => Gave::NoMemory,
    }
}

fn numbers_given(told: Result<TermsRef, NoMemory>) -> Gave
    ensures { result ≡ numbers_given told }
{
    match told {
        Ok(numbers) => Gave::Ref(numbers),
        Err(NoMemory) => Gave::NoMemory,
    }
}

fn space_given(told: Result<Space, NoMemory>) -> Gave
    ensures { result ≡ space_given told }
{
    match told {
        Ok(space) => Gave::Space(space),
        Err(NoMemory) => Gave::NoMemory,
    }
}

fn identity_given(told: Result<Identity, NoMemory>) -> Gave
    ensures { result ≡ identity_given told }
{
    match told {
        Ok(identity) => Gave::Identity(identity),
        Err(NoMemory) => Gave::NoMemory,
    }
}

fn terms_given(told: Result<(Terms, u32), NoMemory>) -> Gave
    ensures { result ≡ terms_given told }
{
    match told {
        Ok((terms, nonce)) => Gave::Terms(terms, nonce),
        Err(NoMemory) => Gave::NoMemory,
    }
}

/// Gives the machine an answer.
fn give(machine: &mut Machine, gave: Gave)
    requires { HasSetting machine.old }
    ensures { IsGivenAs gave machine.old machine.new }
{
    machine.gave(gave);
}

/// Calls the book.
fn answer_call<B: Controller>(
    book: &mut B,
    words: &mut PlainWords,
    machine: &mut Machine,
    request: u32,
    wanted: Call,
)
    requires serving { HasServing (B.roster book.old) (B.told book.old) words.old machine.old }
    requires number { request ≡ machine.old.number }
    requires need { need_at machine.old machine.old.stage ≡ Some (Need.Book wanted) }
    ensures roster { B.roster book.new ≡ B.roster book.old }
    ensures given { IsGiven (B.roster book.old) (B.told book.old) (B.told book.new)
        machine.old machine.new }
    ensures serving { IsServedOn (B.roster book.old) (B.told book.old) (B.told book.new)
        words.old words.new machine.old machine.new }
{
    let reply = call(book, words, request, wanted);
    give(machine, Gave::Reply(reply));
}

/// Names a space.
fn answer_space<B: Controller>(book: &mut B, machine: &mut Machine, space: Space)
    requires serving { HasServingBy (B.roster book.old) (B.told book.old) machine.old }
    requires need { need_at machine.old machine.old.stage ≡ Some (Need.SpaceNo space) }
    ensures roster { B.roster book.new ≡ B.roster book.old }
    ensures given { IsGiven (B.roster book.old) (B.told book.old) (B.told book.new)
        machine.old machine.new }
    ensures serving { IsServedOnBy (B.roster book.old) (B.told book.old) (B.told book.new)
        machine.old machine.new }
{
    let _entries = book.journal().entries();
    let told = book.space_no(1, &space);
    give(machine, number_given(told));
}

/// Names the terms of a space.
fn answer_terms<B: Controller>(book: &mut B, machine: &mut Machine, space: u32, terms: Terms)
    requires serving { HasServingBy (B.roster book.old) (B.told book.old) machine.old }
    requires need { need_at machine.old machine.old.stage ≡ Some (Need.TermsNo space terms) }
    ensures roster { B.roster book.new ≡ B.roster book.old }
    ensures given { IsGiven (B.roster book.old) (B.told book.old) (B.told book.new)
        machine.old machine.new }
    ensures serving { IsServedOnBy (B.roster book.old) (B.told book.old) (B.told book.new)
        machine.old machine.new }
{
    let _entries = book.journal().entries();
    let told = book.terms_no(1, space, &terms);
    give(machine, numbers_given(told));
}

/// Names the identity that the user gave.
fn answer_text<B: Controller>(book: &mut B, machine: &mut Machine, identity: Identity)
    requires serving { HasServingBy (B.roster book.old) (B.told book.old) machine.old }
    requires need { need_at machine.old machine.old.stage ≡ Some (Need.TextNo identity) }
    ensures roster { B.roster book.new ≡ B.roster book.old }
    ensures given { IsGiven (B.roster book.old) (B.told book.old) (B.told book.new)
        machine.old machine.new }
    ensures serving { IsServedOnBy (B.roster book.old) (B.told book.old) (B.told book.new)
        machine.old machine.new }
{
    let _entries = book.journal().entries();
    let told = book.text_no(1, &identity);
    give(machine, number_given(told));
}

/// Tells a space.
fn answer_space_of<B: Controller>(book: &B, machine: &mut Machine, space: u32)
    requires serving { HasServingBy (B.roster book.now) (B.told book.now) machine.old }
    requires need { need_at machine.old machine.old.stage ≡ Some (Need.SpaceOf space) }
    ensures given { IsGiven (B.roster book.now) (B.told book.now) (B.told book.now)
        machine.old machine.new }
    ensures serving { IsServedOnBy (B.roster book.now) (B.told book.now) (B.told book.now)
        machine.old machine.new }
{
    let told = book.space_of(space);
    give(machine, space_given(told));
}

/// Tells the identity of a gift.
fn answer_identity<B: Controller>(book: &B, machine: &mut Machine, gift: Gift)
    requires serving { HasServingBy (B.roster book.now) (B.told book.now) machine.old }
    requires need { need_at machine.old machine.old.stage ≡ Some (Need.IdentityOf gift) }
    ensures given { IsGiven (B.roster book.now) (B.told book.now) (B.told book.now)
        machine.old machine.new }
    ensures serving { IsServedOnBy (B.roster book.now) (B.told book.now) (B.told book.now)
        machine.old machine.new }
{
    let told = book.identity_of(gift);
    give(machine, identity_given(told));
}

/// Tells terms.
fn answer_terms_of<B: Controller>(book: &B, machine: &mut Machine, terms: u32)
    requires serving { HasServingBy (B.roster book.now) (B.told book.now) machine.old }
    requires need { need_at machine.old machine.old.stage ≡ Some (Need.TermsOf terms) }
    ensures given { IsGiven (B.roster book.now) (B.told book.now) (B.told book.now)
        machine.old machine.new }
    ensures serving { IsServedOnBy (B.roster book.now) (B.told book.now) (B.told book.now)
        machine.old machine.new }
{
    let told = book.terms_of(terms);
    give(machine, terms_given(told));
}

/// Draws a count.
fn answer_draw<B: Controller>(book: &B, words: &mut PlainWords, machine: &mut Machine, nonce: u32)
    requires serving { HasServing (B.roster book.now) (B.told book.now) words.old machine.old }
    requires need { need_at machine.old machine.old.stage ≡ Some (Need.Draw nonce) }
    ensures given { IsGiven (B.roster book.now) (B.told book.now) (B.told book.now)
        machine.old machine.new }
    ensures serving { IsServedOn (B.roster book.now) (B.told book.now) (B.told book.now)
        words.old words.new machine.old machine.new }
{
    let _names = book.names();
    let drawn = words.draw(nonce);
    give(machine, Gave::Drawn(drawn));
}

/// Answers what the machine needs.
#[tactic(auto, using(crate::proofs::Arms::by_words))]
pub(crate) fn answer<B: Controller>(
    book: &mut B,
    words: &mut PlainWords,
    machine: &mut Machine,
    request: u32,
    need: Need,
)
    requires serving { HasServing (B.roster book.old) (B.told book.old) words.old machine.old }
    requires number { request ≡ machine.old.number }
    requires need { need_at machine.old machine.old.stage ≡ Some need }
    requires going { need ≢ Need.Ended }
    ensures roster { B.roster book.new ≡ B.roster book.old }
    ensures given { IsGiven (B.roster book.old) (B.told book.old) (B.told book.new)
        machine.old machine.new }
    ensures serving { IsServedOn (B.roster book.old) (B.told book.old) (B.told book.new)
        words.old words.new machine.old machine.new }
{
    match need {
        Need::Book(wanted) => answer_call(book, words, machine, request, wanted),
        Need::SpaceNo(space) => answer_space(book, machine, space),
        Need::TermsNo(space, terms) => answer_terms(book, machine, space, terms),
        Need::TextNo(identity) => answer_text(book, machine, identity),
        Need::SpaceOf(space) => answer_space_of(book, machine, space),
        Need::IdentityOf(gift) => answer_identity(book, machine, gift),
        Need::TermsOf(terms) => answer_terms_of(book, machine, terms),
        Need::Draw(nonce) => answer_draw(book, words, machine, nonce),
        Need::Ended => unreachable!(),
    }
}
