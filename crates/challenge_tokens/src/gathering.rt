//! Parameters while they are gathered, of which the first of each name counts. A list that grows
//! long gets an ordered set of its names beside it, so that a new name isn't compared with all of
//! them.

ghost use Rattle.std.specs.Prelude.{◌≡◌, [], ◌∷◌, ◌++◌, ◌||◌, ℕ, List, not, bytes_eq, IsTrue, IfOk};
ghost use Rattle.std.specs.Prelude.{OnOk};
ghost use Rattle.challenge_tokens.specs.Names.{is_lower, has_name};
ghost use Rattle.challenge_tokens.specs.Indexes.{has_key, IsIndexOf, IsKnown};
ghost use Rattle.challenge_tokens.specs.Pieces.{join};

use crate::params::{Param, Params};
use auth_text::NoMemory;
use std::alloc::Global;
use std::collections::BTreeSet;
use std::marker::Model;

/// Names as an ordered set.
type Names = BTreeSet<Vec<u8>>;

/// So many parameters are looked through one by one; beside more of them stands a set.
const FEW: usize = 16;

/// The parameters gathered so far.
#[derive(Drop)]
pub struct Gathering {
    params: Params,
    names: Option<Names>,
}

impl Model for Gathering {
    ghost use Rattle.std.specs.Prelude.{List};
    ghost use Rattle.challenge_tokens.specs.declared.params.Param.{Param};
    ghost use Rattle.challenge_tokens.specs.Indexes.{IsKnown};

    ghost Value = { List Param };

    ghost view = { λ g. g.params };

    ghost invariant = { λ g. IsKnown g.names g.params };
}

/// Adds a name, and tells whether it is new.
fn push_name(alloc: Global, names: &mut Names, name: &[u8]) -> Result<bool, NoMemory>
    ensures names { OnOk result ((q : List ℕ)
        → has_key q names.new ≡ (bytes_eq q name.now || has_key q names.old)) }
    ensures fresh { IfOk result (λ added. added ≡ not (has_key name.now names.old)) }
{
    let added = names.insert(Vec::from_slice(alloc, name)?)?;
    Ok(added)
}

fn names_of(alloc: Global, params: &[Param]) -> Result<Names, NoMemory>
    ensures { IfOk result (λ names. IsIndexOf names params.now) }
{
    let mut names = Names::new(alloc);
    for param in params {
        push_name(alloc, &mut names, param.name.as_slice())?;
    }
    Ok(names)
}

/// The names once a parameter has joined a list that is long by then, and whether its name is new.
fn long_names(
    alloc: Global,
    names: Names,
    params: &[Param],
    more: &Param,
) -> Result<(Names, bool), NoMemory>
    requires { IsIndexOf names params.now }
    ensures names { IfOk result (λ after. IsIndexOf after.0 (join params.now more.now)) }
    ensures fresh { IfOk result (λ after. after.1 ≡ not (has_name more.now.name params.now)) }
{
    let mut names = names;
    let is_new = push_name(alloc, &mut names, more.name.as_slice())?;
    Ok((names, is_new))
}

/// The same of any list.
fn names_after(
    alloc: Global,
    names: Option<Names>,
    params: &Params,
    more: &Param,
) -> Result<(Option<Names>, bool), NoMemory>
    requires { IsKnown names params.now }
    ensures names { IfOk result (λ after. IsKnown after.0 (join params.now more.now)) }
    ensures fresh { IfOk result (λ after. after.1 ≡ not (has_name more.now.name params.now)) }
{
    let names = match names {
        Some(names) => names,
        None => {
            if params.len() < FEW {
                return Ok((None, !params.has(more.name.as_slice())));
            }
            names_of(alloc, params.as_slice())?
        }
    };
    let (names, is_new) = long_names(alloc, names, params.as_slice(), more)?;
    Ok((Some(names), is_new))
}

impl Gathering {
    /// No parameters; it takes no memory yet.
    pub fn new(alloc: Global) -> Gathering
        ensures { result ≡ [] }
    {
        Gathering {
            params: Params::new(alloc),
            names: None,
        }
    }

    /// All that was gathered.
    pub fn into_params(self) -> Params
        ensures { result ≡ self }
    {
        let Gathering { params, names: _ } = self;
        params
    }

    /// With one more parameter, unless its name is there.
    pub fn with(self, alloc: Global, param: Param) -> Result<Gathering, NoMemory>
        requires { IsTrue (is_lower param.name) }
        ensures { IfOk result (λ more. more ≡ join self param) }
    {
        let Gathering { mut params, names } = self;
        let (names, is_new) = names_after(alloc, names, &params, &param)?;
        if is_new {
            params.push(param)?;
        }
        Ok(Gathering { params, names })
    }
}
