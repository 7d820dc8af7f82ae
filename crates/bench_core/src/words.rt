//! The names of the kernels, as the first word gives them.

use crate::replies::WHOLE;
use spaces::Algorithm;

/// How many threads share the work.
#[derive(Clone, Copy, Debug, PartialEq, Eq)]
pub enum Crew {
    One,
    Two,
    Four,
}

/// A kernel, and its size where there are several.
#[derive(Clone, Copy, Debug, PartialEq, Eq)]
pub enum Kernel {
    /// Readings of a field of 60,000 bytes.
    Challenges,
    /// Readings of a field of 15,000 bytes.
    ChallengesQuarter,
    /// Readings of one challenge with 10,000 parameters.
    Parameters,
    /// Readings of one challenge with 2,500 parameters.
    ParametersQuarter,
    /// Prompts that are answered from a list of 65,536 answers.
    Prompts,
    /// Prompts that are answered from a list of 16,384 answers.
    PromptsQuarter,
    /// Credentials of a Digest request with this hash.
    Respond(Algorithm),
    /// Readings of one reply of 60,000 bytes, fed whole.
    Replies,
    /// Readings of one reply with so many chunks of 1,024 bytes and a shorter one, fed in pieces of
    /// so many bytes.
    LongReplies { chunks: u32, piece: usize },
    /// Turns on one list by this many threads.
    Turns(u32),
    /// Draws of one nonce's counts by this many threads.
    Draws(Crew),
}

/// A long reply has a body of 1,048,576 bytes, with its framing; half of one has 524,288.
const LONG: u32 = 1023;

const HALF: u32 = 511;

/// The kernel of this name.
pub fn kernel_of(name: &str) -> Option<Kernel> {
    match name {
        "challenges" => Some(Kernel::Challenges),
        "challenges-quarter" => Some(Kernel::ChallengesQuarter),
        "parameters" => Some(Kernel::Parameters),
        "parameters-quarter" => Some(Kernel::ParametersQuarter),
        "prompts" => Some(Kernel::Prompts),
        "prompts-quarter" => Some(Kernel::PromptsQuarter),
        "respond-md5" => Some(Kernel::Respond(Algorithm::Md5)),
        "respond-sha256" => Some(Kernel::Respond(Algorithm::Sha256)),
        "replies" => Some(Kernel::Replies),
        "long-replies" => Some(long_replies(LONG, WHOLE)),
        "long-replies-half" => Some(long_replies(HALF, WHOLE)),
        "long-replies-8192" => Some(long_replies(LONG, 8192)),
        "long-replies-64" => Some(long_replies(LONG, 64)),
        "long-replies-1" => Some(long_replies(LONG, 1)),
        "turns1" => Some(Kernel::Turns(1)),
        "turns2" => Some(Kernel::Turns(2)),
        "turns4" => Some(Kernel::Turns(4)),
        "turns16" => Some(Kernel::Turns(16)),
        "draws1" => Some(Kernel::Draws(Crew::One)),
        "draws2" => Some(Kernel::Draws(Crew::Two)),
        "draws4" => Some(Kernel::Draws(Crew::Four)),
        _ => None,
    }
}

fn long_replies(chunks: u32, piece: usize) -> Kernel {
    Kernel::LongReplies { chunks, piece }
}
