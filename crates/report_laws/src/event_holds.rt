//! What the parts of an event hold, since their types hold no more.

ghost use Rattle.report_laws.specs.Ranges.{AskHolds, EventHolds, OutcomeHolds, ReadHolds};
ghost use Rattle.report_laws.specs.Ranges.{StepHolds, WhyHolds};
ghost use Rattle.std.specs.Prelude.{◌<◌, ◌^◌};

use crate::holds::{keeps_all_bytes, keeps_bytes, keeps_code, keeps_count, keeps_number};
use auth_runs::{AskSeen, Event, Outcome, Reply, StepSeen, Why};

fn keeps_read(reply: &Reply)
    ensures { ReadHolds reply.now }
{
    keeps_code(reply.code);
    keeps_number(reply.body);
    keeps_all_bytes(reply.fields.as_slice());
    keeps_all_bytes(reply.server_info.as_slice());
    keeps_all_bytes(reply.proxy_info.as_slice());
}

fn keeps_ask(seen: AskSeen)
    ensures { AskHolds seen }
{
    match seen {
        AskSeen::Failed(count) => keeps_count(count),
        _ => {}
    }
}

fn keeps_step(step: &StepSeen)
    ensures { StepHolds step.now }
{
    match step {
        StepSeen::Token(token) => keeps_bytes(token.as_slice()),
        StepSeen::Failed(count) => keeps_count(*count),
        _ => {}
    }
}

fn keeps_why(why: Why)
    ensures { WhyHolds why }
{
    match why {
        Why::Cancelled(prompt) => keeps_number(prompt),
        _ => {}
    }
}

fn keeps_outcome(outcome: Outcome)
    ensures { OutcomeHolds outcome }
{
    match outcome {
        Outcome::Answered(code) => keeps_code(code),
        Outcome::Refused(code, why) => {
            keeps_code(code);
            keeps_why(why);
        }
        Outcome::LinkFailed(count) => keeps_count(count),
        Outcome::ProviderFailed(count) => keeps_count(count),
        Outcome::PromptFailed(count) => keeps_count(count),
        _ => {}
    }
}

fn keeps_two(number: u32, count: u64)
    ensures number { number < 2 ^ 32 }
    ensures count { count < 2 ^ 64 }
{}

fn keeps_three(first: u32, second: u32, third: u32)
    ensures first { first < 2 ^ 32 }
    ensures second { second < 2 ^ 32 }
    ensures third { third < 2 ^ 32 }
{}

pub fn keeps_event(event: &Event)
    ensures { EventHolds event.now }
{
    match event {
        Event::Called { .. } => {}
        Event::Dialed { link } => keeps_number(*link),
        Event::DialFailed { link, count } => keeps_two(*link, *count),
        Event::Drew {
            target: _,
            nonce,
            count,
            epoch,
        } => keeps_three(*nonce, *count, *epoch),
        Event::Headed { link, bytes } => {
            keeps_number(*link);
            keeps_bytes(bytes.as_slice());
        }
        Event::WriteFailed { link, count } => keeps_two(*link, *count),
        Event::ReadFailed { link, count } => keeps_two(*link, *count),
        Event::Replied { link, reply } => {
            keeps_number(*link);
            keeps_read(reply);
        }
        Event::Broken { link, fault: _ } => keeps_number(*link),
        Event::LinkLost { link } => keeps_number(*link),
        Event::AskedFor { prompt, given } => {
            keeps_number(*prompt);
            keeps_ask(*given);
        }
        Event::Stepped { target: _, step } => keeps_step(step),
        Event::Ended { outcome } => keeps_outcome(*outcome),
    }
}
