//! What the machine asks of its caller. What it can't ask for want of memory it doesn't ask: the
//! request ends.

ghost use Rattle.std.specs.Prelude.{◌≡◌, option_map, IfOk};
ghost use Rattle.request_machine.specs.Needs.{spent_call};
ghost use Rattle.request_machine.specs.declared.need.Need.TheVariants.{SpaceNo, TermsNo, TextNo};

use crate::close::first_left;
use crate::machine::Machine;
use crate::need::{Need, need_of};
use crate::stage::{Prompt, Stage};
use auth_events::{Call, Loss};
use auth_text::{Identity, NoMemory};
use spaces::{Space, Target, Terms, copy_identity, copy_space, copy_terms};

impl Machine {
    ghost use Rattle.std.specs.Prelude.{◌≡◌, ◌≤◌, IfOk, IsTrue, None, OnErr, true, false};
    ghost use Rattle.trace_rule.specs.Settings.{Setting};
    ghost use Rattle.request_machine.specs.Kept.{Ties, is_regular, can_stop};
    ghost use Rattle.request_machine.specs.Linked.{line, way, goes_on};
    ghost use Rattle.request_machine.specs.Needs.{need_at, is_naming, IsWantedAt};
    ghost use Rattle.request_machine.specs.Turns.{IsStill};
    ghost use Rattle.request_machine.specs.Work.{work_left};

    /// What is asked for where no name is.
    fn plain_need(&self) -> Option<Need>
        ensures { is_naming self.now.stage ≡ false → result ≡ need_at self.now self.now.stage }
    {
        match self.stage {
            Stage::Call(call) => Some(Need::Book(call)),
            Stage::Select(_, space, terms) => Some(Need::Book(Call::Select { space, terms })),
            Stage::Answer(prompt, text) => Some(Need::Book(answer(prompt, text))),
            Stage::Cancel(prompt) => Some(Need::Book(answer(prompt, 0))),
            Stage::Lose(prompt, loss) => Some(Need::Book(Call::Lose {
                prompt: prompt.number,
                loss,
            })),
            Stage::Take(prompt) => Some(Need::Book(Call::Take {
                prompt: prompt.number,
            })),
            Stage::Reject(_, gift) => Some(Need::Book(Call::Reject {
                space: gift.space,
                ordinal: gift.ordinal,
            })),
            Stage::Renew(_, gift, terms) => Some(Need::Book(Call::Renew { gift, terms })),
            Stage::RenewLast(_, gift, terms, _) => Some(Need::Book(Call::Renew { gift, terms })),
            Stage::Learn(Target::Proxy, piece) => need_of(piece, &self.proxy),
            Stage::Learn(Target::Server, piece) => need_of(piece, &self.server),
            Stage::Draw(_, nonce) => Some(Need::Draw(nonce)),
            Stage::Ask(prompt, _) => {
                if self.space.is_some() {
                    None
                } else {
                    Some(Need::SpaceOf(prompt.space))
                }
            }
            Stage::Close(closing) => Some(Need::Book(first_left(closing))),
            Stage::Spent => Some(Need::Book(spent_call(self.prompt))),
            Stage::SpentEnd => Some(Need::Book(Call::End)),
            Stage::Over => Some(Need::Ended),
            _ => None,
        }
    }

    /// What is asked for, where there is memory to ask for it.
    fn asked_for(&self) -> Result<Option<Need>, NoMemory>
        ensures need { IfOk result (λ need. need ≡ need_at self.now self.now.stage) }
        ensures regular { OnErr result (is_regular self.now.stage ≡ true) }
        ensures stop { OnErr result (can_stop self.now.stage ≡ true) }
    {
        match self.stage {
            Stage::NameSpace(_) => space_need(&self.unnamed_space),
            Stage::NameTerms(_, space) => terms_need(space, &self.unnamed_terms),
            Stage::NameRenewal(_, gift) => terms_need(gift.space, &self.unnamed_terms),
            Stage::NameLast(_, gift, _) => terms_need(gift.space, &self.unnamed_terms),
            Stage::NameText(_) => text_need(&self.given),
            _ => Ok(self.plain_need()),
        }
    }

    /// What is asked of the caller; nothing where the machine goes on by itself.
    #[tactic(auto, using(crate::proofs::Needing::wanted_now))]
    pub(crate) fn need(&mut self) -> Option<Need>
        ensures need { result ≡ need_at self.new self.new.stage }
        ensures past { self.new.past ≡ self.old.past }
        ensures still { result ≡ None → self.new ≡ self.old }
        ensures kept { line self.new ≡ line self.old }
        ensures goes { IsTrue (goes_on (way self.old.stage) (way self.new.stage)) }
        ensures same { IsStill self.old self.new }
        ensures less { work_left self.new ≤ work_left self.old }
        ensures ties { (s : Setting) → Ties s self.old → Ties s self.new }
        ensures wanted { (s : Setting) → Ties s self.old → IsWantedAt s self.new self.new.stage }
    {
        match self.asked_for() {
            Ok(need) => need,
            Err(NoMemory) => {
                self.spend();
                Some(Need::Book(spent_call(self.prompt)))
            }
        }
    }
}

/// The answer to a prompt.
fn answer(prompt: Prompt, text: u32) -> Call
    ensures { result ≡ Call.Answer prompt.number text prompt.terms }
{
    Call::Answer {
        prompt: prompt.number,
        text,
        terms: prompt.terms,
    }
}

/// The first call where memory has run out: a prompt that is open is lost.
fn spent_call(prompt: u32) -> Call
    ensures { result ≡ spent_call prompt }
{
    if prompt == 0 {
        Call::End
    } else {
        Call::Lose {
            prompt,
            loss: Loss::Memory,
        }
    }
}

fn space_need(space: &Option<Space>) -> Result<Option<Need>, NoMemory>
    ensures { IfOk result (λ need. need ≡ option_map SpaceNo space.now) }
{
    match space {
        None => Ok(None),
        Some(space) => Ok(Some(Need::SpaceNo(copy_space(space)?))),
    }
}

fn terms_need(space: u32, terms: &Option<Terms>) -> Result<Option<Need>, NoMemory>
    ensures { IfOk result (λ need. need ≡ option_map (TermsNo space) terms.now) }
{
    match terms {
        None => Ok(None),
        Some(terms) => Ok(Some(Need::TermsNo(space, copy_terms(terms)?))),
    }
}

fn text_need(given: &Option<Identity>) -> Result<Option<Need>, NoMemory>
    ensures { IfOk result (λ need. need ≡ option_map TextNo given.now) }
{
    match given {
        None => Ok(None),
        Some(identity) => Ok(Some(Need::TextNo(copy_identity(identity)?))),
    }
}
