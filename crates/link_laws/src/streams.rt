//! Streams of which more is read. Each law is the contract of an empty function.

ghost use Rattle.std.specs.Prelude.{◌≡◌, ◌++◌, ℕ, List, true, length, drop};
ghost use Rattle.spaces.specs.declared.roster.Method.{Method};
ghost use Rattle.link_trait.specs.declared.links.LinkName.{LinkName};
ghost use Rattle.link_trait.specs.declared.dialer.Traffic.{Traffic};
ghost use Rattle.link_trait.specs.Links.{Stream, heard_on, are_ended_last};
ghost use Rattle.auth_runs.specs.declared.event.Event.{Event};
ghost use Rattle.trace_rule.specs.Heard.{ended, IsHeard};
ghost use Rattle.link_laws.specs.Rests.{read_of, AreMoreBy, AreFrontsOf};

/// What a request has heard of its links stays what they show, when more of them is read.
pub fn heard_stays_heard()
    ensures { (more : LinkName → List ℕ) (before now : LinkName → Stream) (method : Method) (r : ℕ)
        (past : List Event) → AreMoreBy more before now
        → IsHeard before method r past → IsHeard now method r past }
{}

/// What is told later of a link comes behind what was told before.
pub fn reads_come_behind()
    ensures { (old more : List Traffic) → are_ended_last (old ++ more) ≡ true
        → AreMoreBy (λ link. heard_on link more) (read_of old) (read_of (old ++ more)) }
{}

/// Where what was read is the front of what the peers send, their whole streams are that and more.
pub fn streams_hold_their_fronts()
    ensures { (streams : LinkName → List ℕ) (read : LinkName → Stream) → AreFrontsOf streams read
        → AreMoreBy (λ link. drop (length (read link).bytes) (streams link))
        read (λ link. ended (streams link)) }
{}
