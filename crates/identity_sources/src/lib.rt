//! Which identity a request is given: the sources in their one fixed order, so that whoever
//! decides, by an index or by a scan, decides alike.
#![tactic(auto)]

ghost use Rattle.std.specs.Prelude.{◌≡◌, find, Some};
ghost use Rattle.identity_sources.specs.Sources.{sources, holds};

/// What is known of a request and a protection space.
#[derive(Clone, Copy, Debug, PartialEq, Eq)]
pub struct Facts {
    /// The request's URL has an identity that was not tried yet.
    pub url: bool,
    /// The ordinal of the gift that the space holds, or 0.
    pub cached: u32,
    /// The default identity may be used, and was not tried yet.
    pub ambient: bool,
    /// The space's open prompt, or 0.
    pub prompt: u32,
}

/// Where a request's identity comes from.
#[derive(Clone, Copy, Debug, PartialEq, Eq)]
pub enum Choice {
    /// Its URL.
    Url,
    /// What the space holds.
    Cached,
    /// The default identity.
    Default,
    /// Another request's prompt, whose answer it waits for.
    Follow,
    /// A prompt of its own.
    Lead,
}

/// The first source that holds.
pub fn choose(facts: Facts) -> Choice
    ensures { find (holds facts) sources ≡ Some result }
{
    if facts.url {
        Choice::Url
    } else if facts.cached != 0 {
        Choice::Cached
    } else if facts.ambient {
        Choice::Default
    } else if facts.prompt != 0 {
        Choice::Follow
    } else {
        Choice::Lead
    }
}

#[cfg(test)]
mod tests {
    use super::*;

    /// Whether each fact holds, and what is chosen: each source gives way to those before it.
    const TABLE: [(bool, u32, bool, u32, Choice); 8] = [
        (true, 0, false, 0, Choice::Url),
        (true, 2, true, 3, Choice::Url),
        (false, 2, true, 3, Choice::Cached),
        (false, 1, false, 0, Choice::Cached),
        (false, 0, true, 3, Choice::Default),
        (false, 0, true, 0, Choice::Default),
        (false, 0, false, 3, Choice::Follow),
        (false, 0, false, 0, Choice::Lead),
    ];

    #[test]
    fn takes_the_first_that_holds(rt: HostRuntime) {
        for (url, cached, ambient, prompt, wanted) in TABLE {
            let chosen = choose(Facts {
                url,
                cached,
                ambient,
                prompt,
            });
            assert_eq!(rt; chosen, wanted);
        }
    }
}
