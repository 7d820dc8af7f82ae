//! What a reading says of a link on which nothing was read before, as each request's new link is.

ghost use Rattle.std.specs.Prelude.{◌≡◌, [], ℕ, List, Some, Ok, Err, true, false};
ghost use Rattle.std.specs.declared.option.Option.{Option};
ghost use Rattle.spaces.specs.declared.roster.Method.{Method};
ghost use Rattle.link_trait.specs.declared.links.LinkName.{LinkName};
ghost use Rattle.link_trait.specs.declared.dialer.Traffic.{Traffic};
ghost use Rattle.link_trait.specs.Links.{heard_on, read_on};
ghost use Rattle.wire_head.specs.declared.reply.Reply.{Reply};
ghost use Rattle.wire_head.specs.declared.reply.WireFault.{WireFault};
ghost use Rattle.wire_head.specs.Replies.{reply};
ghost use Rattle.connection_binding.specs.declared.ends.ReadEnd.{ReadEnd};
ghost use Rattle.connection_binding.specs.declared.ends.ReadEnd.TheVariants.{Whole, Broken};
ghost use Rattle.connection_binding.specs.LinkStates.{new_link};
ghost use Rattle.connection_binding.specs.Readings.{IsReplyRead, Shows};

/// All that a dialer tells of the link shows the answer; and where it is known what the peer sends,
/// its whole stream shows the reply or the fault, however much of it was read.
pub fn new_links()
    ensures told { (link : LinkName) (method : Method)
        (streams : Option (LinkName → List ℕ)) (old new : List Traffic) (end : ReadEnd)
        → read_on link old ≡ record { bytes = []; ended = false }
        → IsReplyRead link method streams (Some old) (Some new) end
        → (left : List ℕ) × Shows (new_link link) method (read_on link new) end left }
    ensures reply_sent { (link : LinkName) (method : Method) (streams : LinkName → List ℕ)
        (old : List Traffic) (new : Option (List Traffic)) (r : Reply) → heard_on link old ≡ []
        → IsReplyRead link method (Some streams) (Some old) new (Whole r)
        → (n : ℕ) × (reply method (streams link) true ≡ Ok (Some (r, n))) }
    ensures fault_sent { (link : LinkName) (method : Method) (streams : LinkName
        → List ℕ) (old : List Traffic) (new : Option (List Traffic)) (fault : WireFault)
        → heard_on link old ≡ []
        → IsReplyRead link method (Some streams) (Some old) new (Broken fault)
        → reply method (streams link) true ≡ Err fault }
{}
