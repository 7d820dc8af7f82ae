//! Prompts of many spaces, each answered from one list of answers.

ghost use Rattle.std.specs.Prelude.{◌≡◌, ◌<◌, IfOk, count_by, is_some};
ghost use Rattle.link_trait.specs.Prompts.{answer_in};

use auth_text::{Bytes, Identity, Items, NoMemory};
use link_trait::{Answers, Ask, Asked, Prompter, ScriptPrompter};
use spaces::{Origin, Partition, Scheme, Site, Space, Target};
use std::alloc::Global;

/// The Basic space of one server whose realm is this number's bytes.
fn space(alloc: Global, number: u32) -> Result<Space, NoMemory> {
    let Ok(partition) = Partition::new(alloc, b"main") else {
        return Err(NoMemory);
    };
    let site = Site {
        partition,
        target: Target::Server,
        origin: Origin {
            host: Bytes::from_slice(alloc, b"intra.example")?,
            port: 80,
        },
    };
    let realm = Bytes::from_slice(alloc, &number.to_be_bytes())?;
    Ok(Space::new(site, Scheme::Basic, realm))
}

fn identity(alloc: Global) -> Result<Identity, NoMemory> {
    match Identity::new(alloc, b"Aladdin", b"open sesame") {
        Ok(identity) => Ok(identity),
        Err(_) => Err(NoMemory),
    }
}

/// As many answers of each space as there are spaces, the spaces by turns.
fn answers(alloc: Global, spaces: u32) -> Result<Answers, NoMemory> {
    let mut answers = Answers::new(alloc);
    for _ordinal in 0..spaces {
        for number in 0..spaces {
            answers.push((space(alloc, number)?, Some(identity(alloc)?)))?;
        }
    }
    Ok(answers)
}

/// So many prompts of these spaces by turns.
fn prompts(alloc: Global, spaces: u32, count: u32) -> Result<Items<Ask>, NoMemory>
    requires { 0 < spaces }
{
    let mut prompts = Items::new(alloc);
    for number in 0..count {
        prompts.push(Ask {
            space: space(alloc, number % spaces)?,
            ordinal: number / spaces % spaces + 1,
        })?;
    }
    Ok(prompts)
}

/// Asks the prompt, and tells whether it got an identity.
fn is_given(prompter: &mut ScriptPrompter, ask: &Ask) -> Result<bool, NoMemory>
    ensures given { IfOk result
        (λ given. given ≡ is_some (answer_in prompter.old.answers ask.now.space ask.now.ordinal)) }
    ensures answers { answer_in prompter.new.answers ≡ answer_in prompter.old.answers }
{
    match prompter.ask(&ask.space, ask.ordinal) {
        Asked::Given(_) => Ok(true),
        Asked::Cancel | Asked::Failed => Ok(false),
        Asked::NoMemory => Err(NoMemory),
    }
}

/// Asks each prompt, and tells how many got an identity.
fn given(prompter: &mut ScriptPrompter, prompts: &[Ask]) -> Result<usize, NoMemory>
    ensures { IfOk result (λ given. given
        ≡ count_by
        (λ ask. is_some (answer_in prompter.old.answers ask.space ask.ordinal)) prompts.now) }
{
    let mut given = 0;
    for ask in prompts {
        if is_given(prompter, ask)? {
            given += 1;
        }
    }
    Ok(given)
}

/// Makes a prompter of as many answers as the square of the number of spaces, and asks so many
/// prompts. Each gets an identity.
pub fn run(alloc: Global, spaces: u32, times: u32) -> Result<u32, NoMemory>
    requires { 0 < spaces }
{
    let mut prompter = ScriptPrompter::new(alloc, &answers(alloc, spaces)?)?;
    let prompts = prompts(alloc, spaces, times)?;
    let given = given(&mut prompter, prompts.as_slice())?;
    Ok(u32::try_from(given).unwrap_or(u32::MAX))
}
