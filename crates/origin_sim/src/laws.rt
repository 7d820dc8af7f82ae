//! What the definition of a world's answers says as a whole.

ghost use Rattle.std.specs.Prelude.{◌≡◌, List, ℕ};
ghost use Rattle.link_trait.specs.declared.links.LinkName.{LinkName};
ghost use Rattle.spaces.specs.declared.place.Origin.{Origin};
ghost use Rattle.origin_sim.specs.Worlds.{WorldState, IsAnswer};

/// A head has one answer: the reply, and the world behind it, are fixed by the world before it, the
/// link, the origin that it goes to and its bytes.
pub fn answers_are_one()
    ensures { (old : WorldState) (link : LinkName) (to : Origin) (head reply other : List ℕ)
        (new another : WorldState) → IsAnswer old link to head reply new
        → IsAnswer old link to head other another → (reply ≡ other) × (new ≡ another) }
{}
