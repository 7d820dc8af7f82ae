//! The roster: all requests of a session, and the origins that get the default identity unasked.

ghost use Rattle.std.specs.Prelude.{◌≡◌, ◌++◌, ◌∷◌, [], Some, length, slice_get, IfOk, IfErr};
ghost use Rattle.std.specs.Prelude.{IsTrue, MatchOption, OnErr, OnOk, option_copied};
ghost use Rattle.spaces.specs.RequestTargets.{method_name};
ghost use Rattle.spaces.specs.Sites.{is_routed, numbered, site_of};

use crate::partition::Partition;
use crate::place::{Origin, Place};
use crate::site::{Site, Target};
use auth_text::NoMemory;
use std::alloc::{AllocFailed, Global};
use std::marker::Model;

/// The method of a request.
#[derive(Clone, Copy, Debug, PartialEq, Eq)]
pub enum Method {
    Get,
    Head,
}

impl Method {
    /// The name that a request line has (RFC 7231 section 4.1).
    pub fn name(self) -> &'static [u8]
        ensures { result.now ≡ method_name self }
    {
        match self {
            Method::Get => b"GET",
            Method::Head => b"HEAD",
        }
    }
}

/// A request: what to fetch, in which partition, and by which proxy, if by one.
#[derive(Clone, Debug, Drop, PartialEq, Eq)]
pub struct Request {
    pub method: Method,
    pub partition: Partition,
    pub place: Place,
    pub proxy: Option<Origin>,
}

/// Seen as the list of the requests, which are numbered from 1.
#[derive(Debug, Drop)]
pub struct Requests {
    items: Vec<Request>,
}

impl Model for Requests {
    ghost use Rattle.std.specs.Prelude.{List};
    ghost use Rattle.spaces.specs.declared.roster.Request.{Request};

    ghost Value = { List Request };

    ghost view = { λ r. r.items.items };
}

/// Seen as the list of the origins.
#[derive(Debug, Drop)]
pub struct Origins {
    items: Vec<Origin>,
}

impl Model for Origins {
    ghost use Rattle.std.specs.Prelude.{List};
    ghost use Rattle.spaces.specs.declared.place.Origin.{Origin};

    ghost Value = { List Origin };

    ghost view = { λ o. o.items.items };
}

/// The requests, and the origins for which the default identity is allowed.
#[derive(Debug, Drop)]
pub struct Roster {
    pub requests: Requests,
    pub allowed: Origins,
}

impl Requests {
    /// No requests.
    pub fn new(alloc: Global) -> Self
        ensures { result ≡ [] }
    {
        Requests {
            items: Vec::new(alloc),
        }
    }

    /// Adds a request. Where there is no memory, nothing changes and it is handed back.
    pub fn push(&mut self, request: Request) -> Result<(), AllocFailed<Request>>
        ensures ok { OnOk result (self.new ≡ self.old ++ request ∷ []) }
        ensures back { IfErr result (λ refused. refused.value ≡ request) }
        ensures err { OnErr result (self.new ≡ self.old) }
    {
        self.items.push(request)
    }

    /// Takes the last request out.
    pub fn pop(&mut self) -> Option<Request>
        ensures { MatchOption result ((self.old ≡ [])
            × (self.new ≡ [])) (λ last. self.old ≡ self.new ++ last ∷ []) }
    {
        self.items.pop()
    }

    /// How many requests there are.
    pub fn len(&self) -> usize
        ensures { result ≡ length self.now }
    {
        self.items.len()
    }

    /// The request of that number, from 1.
    pub fn get(&self, number: u32) -> Option<&Request>
        ensures { option_copied result ≡ numbered self.now number }
    {
        if number == 0 {
            return None;
        }
        self.items.get(number as usize - 1)
    }

    /// The requests, from number 1.
    pub fn as_slice(&self) -> &[Request]
        ensures { result.now ≡ self.now }
    {
        self.items.as_slice()
    }
}

impl Origins {
    /// No origins.
    pub fn new(alloc: Global) -> Self
        ensures { result ≡ [] }
    {
        Origins {
            items: Vec::new(alloc),
        }
    }

    /// Adds an origin. Where there is no memory, nothing changes and it is handed back.
    pub fn push(&mut self, origin: Origin) -> Result<(), AllocFailed<Origin>>
        ensures ok { OnOk result (self.new ≡ self.old ++ origin ∷ []) }
        ensures back { IfErr result (λ refused. refused.value ≡ origin) }
        ensures err { OnErr result (self.new ≡ self.old) }
    {
        self.items.push(origin)
    }

    /// Takes the last origin out.
    pub fn pop(&mut self) -> Option<Origin>
        ensures { MatchOption result ((self.old ≡ [])
            × (self.new ≡ [])) (λ last. self.old ≡ self.new ++ last ∷ []) }
    {
        self.items.pop()
    }

    /// How many origins there are.
    pub fn len(&self) -> usize
        ensures { result ≡ length self.now }
    {
        self.items.len()
    }

    /// The origin at that place, from 0.
    pub fn get(&self, at: usize) -> Option<&Origin>
        ensures { option_copied result ≡ slice_get self.now at }
    {
        self.items.get(at)
    }

    /// The origins, in the order in which they were added.
    pub fn as_slice(&self) -> &[Origin]
        ensures { result.now ≡ self.now }
    {
        self.items.as_slice()
    }
}

fn site_at(
    alloc: Global,
    partition: &Partition,
    target: Target,
    origin: &Origin,
) -> Result<Site, NoMemory>
    ensures { IfOk result (λ site. site
        ≡ record { partition = partition.now; target = target; origin = origin.now }) }
{
    Ok(Site {
        partition: partition.clone()?,
        target,
        origin: origin.clone()?,
    })
}

impl Roster {
    /// The numbered request's site for a target on its route. The route is the proxy, where the
    /// request has one, and then the server.
    pub fn site(&self, alloc: Global, request: u32, target: Target) -> Result<Site, NoMemory>
        requires { IsTrue (is_routed self.now.requests request target) }
        ensures { IfOk result (λ site. site_of self.now.requests request target ≡ Some site) }
    {
        let Some(request) = self.requests.get(request) else {
            unreachable!()
        };
        match (target, &request.proxy) {
            (Target::Server, _) => {
                site_at(alloc, &request.partition, target, &request.place.origin)
            }
            (Target::Proxy, Some(proxy)) => site_at(alloc, &request.partition, target, proxy),
            _ => unreachable!(),
        }
    }
}
