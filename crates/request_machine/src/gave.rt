//! What the caller tells a machine: the book's reply to a call, what the book has of what is held,
//! a number, or a count. It takes no memory.

ghost use Rattle.std.specs.Prelude.{◌≡◌};

use crate::holding::NamedTerms;
use crate::machine::Machine;
use crate::stage::{Closing, Piece, Prompt, Stage};
use auth_events::{BookReply, Call, Drawn, Loss, TermsRef};
use auth_text::Identity;
use spaces::{Space, Target, Terms};

/// The answer to a need.
#[derive(Debug, Drop)]
pub enum Gave {
    /// The book's reply to the call.
    Reply(BookReply),
    /// The number of the space or of the text.
    Number(u32),
    /// The numbers of the terms and of their nonce.
    Ref(TermsRef),
    /// The identity that the gift stands for.
    Identity(Identity),
    /// The terms of that number, and the number of their nonce.
    Terms(Terms, u32),
    /// The space of that number.
    Space(Space),
    /// The count that was drawn.
    Drawn(Drawn),
    /// There was no memory.
    NoMemory,
}

impl Machine {
    ghost use Rattle.std.specs.Prelude.{◌≡◌, ◌<◌, IsTrue, length, None, true, false};
    ghost use Rattle.trace_rule.specs.Settings.{Setting};
    ghost use Rattle.auth_events.specs.Pages.{fits};
    ghost use Rattle.trace_rule.specs.Traces.{suits};
    ghost use Rattle.request_machine.specs.Gives.{IsReplyTo, IsTold, IsNumberTold};
    ghost use Rattle.request_machine.specs.Gives.{AreTermsNumbered};
    ghost use Rattle.request_machine.specs.Gives.{past_replied, past_drawn, past_given};
    ghost use Rattle.request_machine.specs.Linked.{line, way, goes_on, is_ending, IsLinked};
    ghost use Rattle.request_machine.specs.Prompted.{space_given};
    ghost use Rattle.request_machine.specs.Kept.{Ties};
    ghost use Rattle.request_machine.specs.Rooms.{HasSetting};
    ghost use Rattle.request_machine.specs.Needs.{first_left};
    ghost use Rattle.request_machine.specs.Turns.{is_asking};
    ghost use Rattle.request_machine.specs.Work.{is_waiting, is_unspent, is_answer, is_of_naming};
    ghost use Rattle.request_machine.specs.Work.{stage_told, work_left};

    /// The book replied to one of the first calls.
    fn replied_first(&mut self, call: Call, reply: BookReply)
        requires room { length self.old.past < 256 }
        requires stage { self.old.stage ≡ Stage.Call call }
        ensures past { self.new.past ≡ past_replied self.old self.old.stage reply }
        ensures kept { line self.new ≡ line self.old }
        ensures goes { IsTrue (goes_on (way self.old.stage) (way self.new.stage)) }
        ensures free { length self.old.past < length self.new.past
            → is_waiting self.new.stage ≡ false }
        ensures ties { (s : Setting) → IsTrue (suits s self.old.past call reply)
            → Ties s self.old → Ties s self.new }
    {
        match call {
            Call::Begin => self.begun(reply),
            Call::Preempt {
                target: Target::Proxy,
            } => self.preempted_proxy(reply),
            Call::Preempt {
                target: Target::Server,
            } => self.preempted_server(reply),
            _ => (),
        }
    }

    /// The book chose. A reply that fits no choice changes nothing.
    fn selected(&mut self, target: Target, space: u32, terms: u32, reply: BookReply)
        requires room { length self.old.past < 256 }
        requires stage { self.old.stage ≡ Stage.Select target space terms }
        ensures past { self.new.past ≡ past_replied self.old self.old.stage reply }
        ensures kept { line self.new ≡ line self.old }
        ensures goes { IsTrue (goes_on (way self.old.stage) (way self.new.stage)) }
        ensures free { length self.old.past < length self.new.past
            → is_waiting self.new.stage ≡ false }
        ensures ties { (s : Setting)
            → IsTrue (suits s self.old.past (Call.Select space terms) reply)
            → Ties s self.old → Ties s self.new }
    {
        match reply {
            BookReply::Url { gift, evicted } => {
                self.given_by_url(target, space, terms, gift, evicted);
            }
            BookReply::Cached { gift } => self.cached(target, space, terms, gift),
            BookReply::Default => self.default_chosen(target, space, terms),
            BookReply::Lead { prompt, ordinal } => self.led(target, space, terms, prompt, ordinal),
            BookReply::Follow { prompt } => self.followed(target, space, terms, prompt),
            _ => (),
        }
    }

    /// The book replied to the answer of a prompt.
    fn replied_to_answer(&mut self, prompt: Prompt, text: u32, reply: BookReply)
        requires room { length self.old.past < 256 }
        requires stage { self.old.stage ≡ Stage.Answer prompt text }
        ensures past { self.new.past ≡ past_replied self.old self.old.stage reply }
        ensures kept { line self.new ≡ line self.old }
        ensures goes { IsTrue (goes_on (way self.old.stage) (way self.new.stage)) }
        ensures free { length self.old.past < length self.new.past
            → is_waiting self.new.stage ≡ false }
        ensures ties { (s : Setting)
            → IsTrue (suits s self.old.past (Call.Answer prompt.number text prompt.terms) reply)
            → Ties s self.old → Ties s self.new }
    {
        match reply {
            BookReply::Given { gift, evicted } => self.given(prompt, text, gift, evicted),
            _ => (),
        }
    }

    /// The book replied that a prompt is cancelled.
    fn replied_to_cancel(&mut self, prompt: Prompt, reply: BookReply)
        requires room { length self.old.past < 256 }
        requires stage { self.old.stage ≡ Stage.Cancel prompt }
        ensures past { self.new.past ≡ past_replied self.old self.old.stage reply }
        ensures kept { line self.new ≡ line self.old }
        ensures goes { IsTrue (goes_on (way self.old.stage) (way self.new.stage)) }
        ensures free { length self.old.past < length self.new.past
            → is_waiting self.new.stage ≡ false }
        ensures ties { (s : Setting)
            → IsTrue (suits s self.old.past (Call.Answer prompt.number 0 prompt.terms) reply)
            → Ties s self.old → Ties s self.new }
    {
        match reply {
            BookReply::Cancelled => self.cancelled(prompt),
            _ => (),
        }
    }

    /// The book replied that a prompt is lost.
    fn replied_to_loss(&mut self, prompt: Prompt, loss: Loss, reply: BookReply)
        requires room { length self.old.past < 256 }
        requires stage { self.old.stage ≡ Stage.Lose prompt loss }
        ensures past { self.new.past ≡ past_replied self.old self.old.stage reply }
        ensures kept { line self.new ≡ line self.old }
        ensures goes { IsTrue (goes_on (way self.old.stage) (way self.new.stage)) }
        ensures free { length self.old.past < length self.new.past
            → is_waiting self.new.stage ≡ false }
        ensures ties { (s : Setting)
            → IsTrue (suits s self.old.past (Call.Lose prompt.number loss) reply)
            → Ties s self.old → Ties s self.new }
    {
        match reply {
            BookReply::Lost { loss: told } => self.prompt_failed(prompt, loss, told),
            _ => (),
        }
    }

    /// The book told how the prompt ended that the request follows.
    fn took(&mut self, prompt: Prompt, reply: BookReply)
        requires room { length self.old.past < 256 }
        requires stage { self.old.stage ≡ Stage.Take prompt }
        ensures past { self.new.past ≡ past_replied self.old self.old.stage reply }
        ensures kept { line self.new ≡ line self.old }
        ensures goes { IsTrue (goes_on (way self.old.stage) (way self.new.stage)) }
        ensures free { length self.old.past < length self.new.past
            → is_waiting self.new.stage ≡ false }
        ensures ties { (s : Setting)
            → IsTrue (suits s self.old.past (Call.Take prompt.number) reply)
            → Ties s self.old → Ties s self.new }
    {
        match reply {
            BookReply::Gave { gift } => self.taken(prompt, gift),
            BookReply::Cancelled => self.not_taken(prompt),
            BookReply::Lost { loss } => self.lost_with_it(prompt, loss),
            _ => (),
        }
    }

    /// The book replied to the first of the calls that were left.
    fn closed(&mut self, closing: Closing, reply: BookReply)
        requires room { length self.old.past < 256 }
        requires stage { self.old.stage ≡ Stage.Close closing }
        ensures past { self.new.past ≡ past_replied self.old self.old.stage reply }
        ensures kept { line self.new ≡ line self.old }
        ensures goes { IsTrue (goes_on (way self.old.stage) (way self.new.stage)) }
        ensures free { length self.old.past < length self.new.past
            → is_waiting self.new.stage ≡ false }
        ensures ties { (s : Setting)
            → IsTrue (suits s self.old.past (first_left closing.proxy closing.server) reply)
            → Ties s self.old → Ties s self.new }
    {
        let Closing {
            outcome,
            proxy,
            server,
        } = closing;
        if let Some(gift) = proxy {
            let rest = Closing {
                outcome,
                proxy: None,
                server,
            };
            self.noted(closing, rest, gift, reply);
        } else if let Some(gift) = server {
            let rest = Closing {
                outcome,
                proxy: None,
                server: None,
            };
            self.noted(closing, rest, gift, reply);
        } else {
            self.ended(closing, reply);
        }
    }

    /// The book replied where memory had run out.
    fn replied_spent(&mut self, reply: BookReply)
        requires room { length self.old.past < 256 }
        requires stage { self.old.stage ≡ Stage.Spent }
        ensures past { self.new.past ≡ past_replied self.old self.old.stage reply }
        ensures kept { line self.new ≡ line self.old }
        ensures goes { IsTrue (goes_on (way self.old.stage) (way self.new.stage)) }
        ensures free { length self.old.past < length self.new.past
            → is_waiting self.new.stage ≡ false }
        ensures unspent { is_unspent self.new.stage ≡ false }
        ensures ties { (s : Setting) → Ties s self.old → Ties s self.new }
    {
        if self.prompt == 0 {
            self.spent_end();
        } else {
            self.prompt_lost();
        }
    }

    /// The book replied to the call that was asked for.
    fn replied_to(&mut self, reply: BookReply)
        requires room { length self.old.past < 256 }
        ensures past { self.new.past ≡ past_replied self.old self.old.stage reply }
        ensures kept { line self.new ≡ line self.old }
        ensures goes { IsTrue (goes_on (way self.old.stage) (way self.new.stage)) }
        ensures free { length self.old.past < length self.new.past
            → is_waiting self.new.stage ≡ false }
        ensures unspent { is_unspent self.old.stage ≡ false → is_unspent self.new.stage ≡ false }
        ensures ties { (s : Setting) → IsReplyTo s self.old self.old.stage reply
            → Ties s self.old → Ties s self.new }
    {
        match self.stage {
            Stage::Call(call) => self.replied_first(call, reply),
            Stage::Select(target, space, terms) => self.selected(target, space, terms, reply),
            Stage::Answer(prompt, text) => self.replied_to_answer(prompt, text, reply),
            Stage::Cancel(prompt) => self.replied_to_cancel(prompt, reply),
            Stage::Lose(prompt, loss) => self.replied_to_loss(prompt, loss, reply),
            Stage::Take(prompt) => self.took(prompt, reply),
            Stage::Reject(target, gift) => self.rejected(target, gift, reply),
            Stage::Renew(target, gift, terms) => self.renewed(target, gift, terms, reply),
            Stage::RenewLast(target, gift, terms, closing) => {
                self.renewed_last(target, gift, terms, closing, reply);
            }
            Stage::Close(closing) => self.closed(closing, reply),
            Stage::Spent => self.replied_spent(reply),
            Stage::SpentEnd => self.lost_end(),
            _ => (),
        }
    }

    /// A count was drawn.
    fn drew(&mut self, drawn: Drawn)
        requires room { length self.old.past < 256 }
        ensures past { self.new.past ≡ past_drawn self.old self.old.stage drawn }
        ensures kept { line self.new ≡ line self.old }
        ensures goes { IsTrue (goes_on (way self.old.stage) (way self.new.stage)) }
        ensures free { length self.old.past < length self.new.past
            → is_waiting self.new.stage ≡ false }
        ensures unspent { is_unspent self.old.stage ≡ false → is_unspent self.new.stage ≡ false }
        ensures ties { (s : Setting) → Ties s self.old → Ties s self.new }
    {
        match self.stage {
            Stage::Draw(Target::Proxy, nonce) => self.drew_proxy(nonce, drawn),
            Stage::Draw(Target::Server, nonce) => self.drew_server(nonce, drawn),
            _ => (),
        }
    }

    /// The terms that were to be named have a number, which is never 0.
    fn terms_numbered(&mut self, numbers: TermsRef)
        ensures past { self.new.past ≡ self.old.past }
        ensures kept { line self.new ≡ line self.old }
        ensures goes { IsTrue (goes_on (way self.old.stage) (way self.new.stage)) }
        ensures unspent { is_unspent self.old.stage ≡ false → is_unspent self.new.stage ≡ false }
        ensures stage { IsTrue (is_answer self.old.stage (Gave.Ref numbers))
            → self.new.stage ≡ stage_told self.old self.old.stage (Gave.Ref numbers) }
        ensures unanswered { is_answer self.old.stage (Gave.Ref numbers) ≡ false
            → self.new.stage ≡ self.old.stage }
        ensures rest { self.new ≡ record self.old { stage = self.new.stage } }
        ensures ties { (s : Setting) → AreTermsNumbered s self.old self.old.stage numbers.terms
            → Ties s self.old → Ties s self.new }
    {
        if numbers.terms == 0 {
            return;
        }
        match self.stage {
            Stage::NameTerms(target, space) => self.terms_named(target, space, numbers.terms),
            Stage::NameRenewal(target, gift) => self.renewal_named(target, gift, numbers.terms),
            Stage::NameLast(target, gift, closing) => {
                self.last_named(target, gift, closing, numbers.terms);
            }
            _ => (),
        }
    }

    /// The space or the text that was to be named has a number, which is never 0.
    fn numbered(&mut self, number: u32)
        ensures past { self.new.past ≡ self.old.past }
        ensures kept { line self.new ≡ line self.old }
        ensures goes { IsTrue (goes_on (way self.old.stage) (way self.new.stage)) }
        ensures unspent { is_unspent self.old.stage ≡ false → is_unspent self.new.stage ≡ false }
        ensures stage { IsTrue (is_answer self.old.stage (Gave.Number number))
            → self.new.stage ≡ stage_told self.old self.old.stage (Gave.Number number) }
        ensures unanswered { is_answer self.old.stage (Gave.Number number) ≡ false
            → self.new.stage ≡ self.old.stage }
        ensures rest { self.new ≡ record self.old { stage = self.new.stage } }
        ensures ties { (s : Setting) → IsNumberTold s self.old self.old.stage number
            → Ties s self.old → Ties s self.new }
    {
        if number == 0 {
            return;
        }
        match self.stage {
            Stage::NameSpace(target) => self.space_named(target, number),
            Stage::NameText(prompt) => self.text_named(prompt, number),
            _ => (),
        }
    }

    /// Goes on with what the caller tells of the last need. What answers no need of the stage
    /// changes nothing.
    #[tactic(auto, using(crate::proofs::Rooms::tied_room))]
    pub fn gave(&mut self, gave: Gave)
        requires tied { HasSetting self.old }
        ensures past { self.new.past ≡ past_given self.old gave }
        ensures number { self.new.number ≡ self.old.number }
        ensures seed { self.new.seed ≡ self.old.seed }
        ensures link { self.new.link ≡ self.old.link }
        ensures links { self.new.links ≡ self.old.links }
        ensures linked { IsLinked self.old → IsLinked self.new }
        ensures stage { IsTrue (is_answer self.old.stage gave)
            → self.new.stage ≡ stage_told self.old self.old.stage gave }
        ensures unanswered { IsTrue (is_of_naming gave) → is_answer self.old.stage gave ≡ false
            → self.new.stage ≡ self.old.stage }
        ensures left { is_asking self.old ≡ true → IsTrue (is_answer self.old.stage gave)
            → work_left self.new < work_left self.old }
        ensures nearer { length self.old.past < length self.new.past
            → work_left self.new < work_left self.old }
        ensures free { length self.old.past < length self.new.past
            → is_waiting self.new.stage ≡ false }
        ensures unspent { is_unspent self.old.stage ≡ false → is_unspent self.new.stage ≡ false }
        ensures ends { is_ending (way self.old.stage) ≡ true
            → is_ending (way self.new.stage) ≡ true }
        ensures given { self.new.given ≡ self.old.given }
        ensures space { self.new.space ≡ space_given self.old gave }
        ensures ties { (s : Setting) → IsTold s self.old self.old.stage gave
            → Ties s self.old → Ties s self.new }
    {
        match gave {
            Gave::Reply(reply) => self.replied_to(reply),
            Gave::Number(number) => self.numbered(number),
            Gave::Ref(numbers) => self.terms_numbered(numbers),
            Gave::Identity(identity) => match self.stage {
                Stage::Learn(target, Piece::Identity) => self.told_identity(target, identity),
                _ => (),
            },
            Gave::Terms(terms, nonce) => match self.stage {
                Stage::Learn(target, Piece::Terms) => {
                    self.told_terms(target, NamedTerms { terms, nonce });
                }
                _ => (),
            },
            Gave::Space(space) => match self.stage {
                Stage::Learn(target, Piece::Space) => self.told_space(target, space),
                Stage::Ask(_, _) => self.told_prompt(space),
                _ => (),
            },
            Gave::Drawn(drawn) => self.drew(drawn),
            Gave::NoMemory => self.not_told(),
        }
    }
}
