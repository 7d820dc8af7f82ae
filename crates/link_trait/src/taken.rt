//! Which requests' calls took a step of a script. A request's place is kept beside the list, so
//! that its next step is found without going over all calls before.

ghost use Rattle.std.specs.Prelude.{◌≡◌, [], ◌∷◌, ◌++◌, ◌<◌, ◌≤◌, ◌+◌, ◌^◌, ◌==◌, ℕ, length};
ghost use Rattle.std.specs.Prelude.{vec_len, OnOk, OnErr, if◌then◌else◌};
ghost use Rattle.std.proofs.Common.{get_or};
ghost use Rattle.link_trait.specs.Tokens.{taken_by};

use auth_text::{Items, NoMemory};
use std::alloc::Global;
use std::marker::Model;

/// The greatest number of a request whose place is kept; a session has no more requests.
const LAST: u32 = 2_048;

/// The requests of the calls that took a step, in order.
#[derive(Drop)]
pub(crate) struct Taken {
    requests: Items<u32>,
    places: Vec<usize>,
}

impl Model for Taken {
    ghost use Rattle.std.specs.Prelude.{List, ℕ};
    ghost use Rattle.link_trait.specs.Tokens.{ArePlaces};

    ghost Value = { List ℕ };

    ghost view = { λ it. it.requests };

    ghost invariant = { λ it. ArePlaces it.places.items it.requests };
}

// The request's place, where it is kept.
fn place_in(places: &[usize], request: u32) -> usize
    ensures { result ≡ get_or places.now request 0 }
{
    let at = request as usize;
    if at < places.len() { places[at] } else { 0 }
}

fn taken_by(request: u32, taken: &[u32]) -> usize
    ensures { result ≡ taken_by request taken.now }
{
    taken.iter().filter(|other| **other == request).count()
}

// Makes room for the places of the requests up to this one.
fn make_room(places: &mut Vec<usize>, request: u32) -> Result<(), NoMemory>
    ensures same { (n : ℕ) → get_or places.new.items n 0 ≡ get_or places.old.items n 0 }
    ensures room { OnOk result (request < vec_len places.new) }
{
    while places.len() <= request as usize {
        places.push(0)?;
    }
    Ok(())
}

// One more call of the request took a step.
fn count_call(places: &mut Vec<usize>, request: u32)
    requires room { request < vec_len places.old }
    requires fit { get_or places.old.items request 0 + 1 < 2 ^ 64 }
    ensures { (n : ℕ) → get_or places.new.items n 0
        ≡ get_or places.old.items n 0 + (if request == n then 1 else 0) }
{
    places[request as usize] += 1;
}

impl Taken {
    /// No call took a step yet.
    pub(crate) fn new(alloc: Global) -> Taken
        ensures { result ≡ [] }
    {
        Taken {
            requests: Items::new(alloc),
            places: Vec::new(alloc),
        }
    }

    /// How many calls took a step.
    pub(crate) fn len(&self) -> usize
        ensures { result ≡ length self.now }
    {
        self.requests.len()
    }

    /// How many of the request's calls took a step.
    pub(crate) fn by(&self, request: u32) -> usize
        ensures { result ≡ taken_by request self.now }
    {
        if request <= LAST {
            place_in(self.places.as_slice(), request)
        } else {
            taken_by(request, self.requests.as_slice())
        }
    }

    fn push_kept(&mut self, request: u32) -> Result<(), NoMemory>
        requires { request ≤ LAST }
        ensures ok { OnOk result (self.new ≡ self.old ++ request ∷ []) }
        ensures err { OnErr result (self.new ≡ self.old) }
    {
        make_room(&mut self.places, request)?;
        self.requests.push(request)?;
        prove!(place_in(self.places.as_slice(), request) < self.requests.len());
        count_call(&mut self.places, request);
        Ok(())
    }

    /// One more call of the request took a step.
    pub(crate) fn push(&mut self, request: u32) -> Result<(), NoMemory>
        ensures ok { OnOk result (self.new ≡ self.old ++ request ∷ []) }
        ensures err { OnErr result (self.new ≡ self.old) }
    {
        if request <= LAST {
            return self.push_kept(request);
        }
        self.requests.push(request)?;
        Ok(())
    }
}
