//! The queue. It keeps its answers for good, since a follower may take long after other prompts of
//! the space were led.

ghost use Rattle.std.specs.Prelude.{◌≡◌, ◌+◌, ◌*◌, ◌<◌, ◌≤◌, [], Some, IfOk, OnOk, OnErr, None};
ghost use Rattle.std.specs.Prelude.{IsTrue, is_some, length, reverse, option_map, max, false};
ghost use Rattle.std.specs.Prelude.{slice_get, ◌-◌};
ghost use Rattle.prompt_queue.specs.declared.queue.PromptTake.TheVariants.{Pending, Lost};
ghost use Rattle.prompt_queue.specs.Prompts.{prompt_of, open_prompt};
ghost use Rattle.prompt_queue.specs.Rows.{AreNumbered, AreKept};

use auth_events::Loss;
use auth_text::NoMemory;
use std::alloc::Global;
use std::marker::Model;

/// What a request does that needs a prompt.
#[derive(Clone, Copy, Debug, PartialEq, Eq)]
pub enum Joined {
    /// It leads a new prompt, the space's `ordinal`-th.
    Lead { prompt: u32, ordinal: u32 },
    /// It waits for the one that is open.
    Follow { prompt: u32 },
}

/// What a prompt has for those who wait.
#[derive(Clone, Copy, Debug, PartialEq, Eq)]
pub enum PromptTake {
    /// It has neither answer nor loss.
    Pending,
    /// The ordinal of the gift that its answer gave in its space.
    Gave { ordinal: u32 },
    Cancelled,
    Lost { loss: Loss },
}

/// A prompt: its space, the request that leads it, and how it ended.
#[derive(Clone, Copy)]
struct Prompt {
    number: u32,
    space: u32,
    request: u32,
    ending: PromptTake,
}

/// The number of a space's latest prompt, or 0, and how many it had.
#[derive(Clone, Copy)]
struct Row {
    latest: u32,
    led: u32,
}

/// Prompts, with room for 32 of each request. Seen as that number of requests, the room for spaces,
/// and the prompts, the latest first.
#[derive(Drop)]
pub struct PromptQueue {
    requests: u32,
    rows: Vec<Row>,
    prompts: Vec<Prompt>,
}

impl Model for PromptQueue {
    ghost use Rattle.std.specs.Prelude.{◌*◌, ◌≤◌, reverse, length, vec_capacity};
    ghost use Rattle.prompt_queue.specs.Prompts.{Queue};

    ghost Value = { Queue };

    ghost use Rattle.prompt_queue.specs.Rows.{AreKept};

    ghost view = { λ q. record {
      requests = q.requests;
      spaces = length q.rows.items;
      prompts = reverse q.prompts.items;
    } };

    ghost invariant = { λ q. AreKept q.rows.items (reverse q.prompts.items)
        × (q.requests ≤ 2048)
        × (32 * q.requests ≤ vec_capacity q.prompts) };
}

impl PromptQueue {
    ghost use Rattle.prompt_queue.specs.Prompts.{ending_of, is_pending, joined, with_joined};
    ghost use Rattle.prompt_queue.specs.Prompts.{answered, with_ending};

    /// Takes the room for prompts.
    pub fn new(alloc: Global, requests: u32) -> Result<PromptQueue, NoMemory>
        requires { requests ≤ 2048 }
        ensures { IfOk result (λ queue. queue
            ≡ record { requests = requests; spaces = 0; prompts = [] }) }
    {
        let prompts = Vec::with_capacity(alloc, 32 * requests as usize)?;
        Ok(PromptQueue {
            requests,
            rows: Vec::new(alloc),
            prompts,
        })
    }

    /// Takes the room for the spaces up to this one. An `Err` changes nothing.
    pub fn add_space(&mut self, space: u32) -> Result<(), NoMemory>
        ensures ok { OnOk result (self.new
            ≡ record self.old { spaces = max self.old.spaces (space + 1) }) }
        ensures err { OnErr result (self.new ≡ self.old) }
    {
        let len = space as usize + 1;
        if self.rows.len() < len {
            self.rows.resize(len, Row { latest: 0, led: 0 })?;
        }
        Ok(())
    }

    /// How a request would join the space: the open prompt that it would follow, or the one that it
    /// would lead. It changes nothing.
    pub fn joining(&self, space: u32) -> Joined
        requires added { space < self.now.spaces }
        requires room { length self.now.prompts < 32 * self.now.requests }
        ensures { result ≡ joined self.now.prompts space }
    {
        match open_number(self.rows.as_slice(), self.prompts.as_slice(), space) {
            Some(open) => Joined::Follow { prompt: open },
            None => Joined::Lead {
                prompt: self.prompts.len() as u32 + 1,
                ordinal: self.rows[space as usize].led + 1,
            },
        }
    }

    /// Joins the space's open prompt, or leads a new one. It takes no memory.
    pub fn open_or_join(&mut self, space: u32, request: u32) -> Joined
        requires added { space < self.old.spaces }
        requires room { length self.old.prompts < 32 * self.old.requests }
        ensures joined { result ≡ joined self.old.prompts space }
        ensures prompts { self.new
            ≡ record self.old { prompts = with_joined self.old.prompts space request result } }
    {
        match open_number(self.rows.as_slice(), self.prompts.as_slice(), space) {
            Some(prompt) => Joined::Follow { prompt },
            None => self.lead(space, request),
        }
    }

    /// Leads a new prompt.
    fn lead(&mut self, space: u32, request: u32) -> Joined
        requires added { space < self.old.spaces }
        requires room { length self.old.prompts < 32 * self.old.requests }
        requires none { open_prompt self.old.prompts space ≡ None }
        ensures joined { result ≡ joined self.old.prompts space }
        ensures prompts { self.new
            ≡ record self.old { prompts = with_joined self.old.prompts space request result } }
    {
        let prompt = self.prompts.len() as u32 + 1;
        let ordinal = self.rows[space as usize].led + 1;
        self.rows[space as usize] = Row {
            latest: prompt,
            led: ordinal,
        };
        self.prompts.push_reserved(Prompt {
            number: prompt,
            space,
            request,
            ending: PromptTake::Pending,
        });
        Joined::Lead { prompt, ordinal }
    }

    /// The prompt gets its answer: the ordinal of the gift that was given, or 0 for a cancel.
    pub fn answer(&mut self, prompt: u32, ordinal: u32)
        requires { ending_of self.old.prompts prompt ≡ Some Pending }
        ensures { self.new ≡ record self.old {
          prompts = with_ending self.old.prompts prompt
              (answered ordinal);
        } }
    {
        if ordinal == 0 {
            self.end(prompt, PromptTake::Cancelled);
        } else {
            self.end(prompt, PromptTake::Gave { ordinal });
        }
    }

    /// The prompt will have no answer.
    pub fn lose(&mut self, prompt: u32, loss: Loss)
        requires { ending_of self.old.prompts prompt ≡ Some Pending }
        ensures { self.new
            ≡ record self.old { prompts = with_ending self.old.prompts prompt (Lost loss) } }
    {
        self.end(prompt, PromptTake::Lost { loss });
    }

    fn end(&mut self, prompt: u32, outcome: PromptTake)
        requires led { IsTrue (is_some (prompt_of self.old.prompts prompt)) }
        requires ends { is_pending outcome ≡ false }
        ensures { self.new
            ≡ record self.old { prompts = with_ending self.old.prompts prompt outcome } }
    {
        let at = place(self.prompts.as_slice(), prompt);
        self.prompts[at].ending = outcome;
    }

    /// What the prompt has for those who wait. It changes nothing.
    pub fn ending(&self, prompt: u32) -> PromptTake
        requires { IsTrue (is_some (prompt_of self.now.prompts prompt)) }
        ensures { ending_of self.now.prompts prompt ≡ Some result }
    {
        self.prompts[place(self.prompts.as_slice(), prompt)].ending
    }

    /// What the prompt has for the request, whichever of those who wait it is. It changes nothing,
    /// so each takes the same.
    pub fn take(&mut self, prompt: u32, request: u32) -> PromptTake
        requires { IsTrue (is_some (prompt_of self.old.prompts prompt)) }
        ensures taken { ending_of self.old.prompts prompt ≡ Some result }
        ensures same { self.new ≡ self.old }
    {
        self.ending(prompt)
    }
}

/// The place of the prompt.
fn place(prompts: &[Prompt], prompt: u32) -> usize
    requires numbered { AreNumbered (reverse prompts.now) }
    requires led { IsTrue (is_some (prompt_of (reverse prompts.now) prompt)) }
    ensures within { result < length prompts.now }
    ensures place { result ≡ prompt - 1 }
    ensures there { prompt_of (reverse prompts.now) prompt ≡ slice_get prompts.now result }
{
    prompt as usize - 1
}

/// The number of the space's open prompt: only its latest one can be open.
fn open_number(rows: &[Row], prompts: &[Prompt], space: u32) -> Option<u32>
    requires kept { AreKept rows.now (reverse prompts.now) }
    requires added { space < length rows.now }
    ensures { result
        ≡ option_map (λ prompt. prompt.number) (open_prompt (reverse prompts.now) space) }
{
    let latest = rows[space as usize].latest;
    if latest == 0 {
        return None;
    }
    match prompts[latest as usize - 1].ending {
        PromptTake::Pending => Some(latest),
        _ => None,
    }
}
