//! Readings of a link, and what a request hears by them. Each law is the contract of an empty
//! function.

ghost use Rattle.std.specs.Prelude.{◌≡◌, [], ◌∷◌, ℕ, List, true, false, Some};
ghost use Rattle.std.specs.declared.option.Option.{Option};
ghost use Rattle.spaces.specs.declared.roster.Method.{Method};
ghost use Rattle.link_trait.specs.declared.links.LinkName.{LinkName};
ghost use Rattle.link_trait.specs.declared.dialer.Traffic.{Traffic};
ghost use Rattle.link_trait.specs.Links.{Stream, are_ended_last};
ghost use Rattle.wire_head.specs.declared.reply.Reply.{Reply};
ghost use Rattle.connection_binding.specs.LinkStates.{LinkState, new_link};
ghost use Rattle.connection_binding.specs.Readings.{IsNextRead};
ghost use Rattle.connection_binding.specs.declared.ends.ReadEnd.{ReadEnd};
ghost use Rattle.connection_binding.specs.declared.ends.ReadEnd.TheVariants.{Whole};
ghost use Rattle.auth_runs.specs.declared.event.Event.{Event};
ghost use Rattle.auth_runs.specs.declared.event.Event.TheVariants.{Replied};
ghost use Rattle.trace_rule.specs.Holding.{has_reply};
ghost use Rattle.trace_rule.specs.Heard.{IsHeard};
ghost use Rattle.link_laws.specs.Rests.{read_of, AreMoreBy, IsAt};
ghost use Rattle.link_laws.specs.Steps.{past_read};

/// A link of which nothing was read keeps nothing.
pub fn new_links_keep_nothing()
    ensures { (streams : LinkName → Stream) (method : Method) (r link : ℕ) (past : List Event)
        → (streams (record { request = r; nth = link })).bytes ≡ [] → has_reply link past ≡ false
        → IsAt streams method r link past (new_link (record { request = r; nth = link })) }
{}

/// While nothing more of it is read, a link keeps what it kept.
pub fn unread_links_keep_theirs()
    ensures { (more : LinkName → List ℕ) (before now : LinkName → Stream) (method : Method)
        (r link : ℕ) (past : List Event) (state : LinkState) → AreMoreBy more before now
        → more (record { request = r; nth = link }) ≡ [] → IsHeard before method r past
        → IsAt before method r link past state → IsAt now method r link past state }
{}

/// What a reading of a link answers is what the request hears next of it; and what it leaves behind
/// a reply is what the link keeps, the rest of its stream behind the replies taken.
pub fn readings_are_heard()
    ensures heard { (state : LinkState) (method : Method) (streams : Option (LinkName → List ℕ))
        (old new : List Traffic) (end : ReadEnd) (r link : ℕ) (past : List Event)
        → IsNextRead state method streams (Some old) (Some new) end → are_ended_last new ≡ true
        → IsHeard (read_of old) method r past → IsAt (read_of old) method r link past state
        → IsHeard (read_of new) method r (past_read link end past) }
    ensures kept { (state : LinkState) (method : Method) (streams : Option (LinkName → List ℕ))
        (old new : List Traffic) (shown : Reply) (r link : ℕ) (past : List Event)
        → (read : IsNextRead state method streams (Some old) (Some new) (Whole shown))
        → are_ended_last new ≡ true
        → IsHeard (read_of old) method r past → IsAt (read_of old) method r link past state
        → IsAt (read_of new) method r link (Replied link shown ∷ past)
        (record { name = state.name; kept = read.left; has_replied = true }) }
{}
