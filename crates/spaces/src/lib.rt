//! What credentials belong to: places of URLs, partitions, sites, protection spaces, Digest terms,
//! and the requests of a session.
#![tactic(auto)]

mod copies;
mod partition;
mod path;
mod place;
mod request_target;
mod roster;
mod site;
mod space;
mod terms;

pub use copies::{
    copy_identity, copy_origin, copy_request, copy_roster, copy_site, copy_space, copy_terms,
};
pub use partition::{Partition, PartitionFault};
pub use path::{covers, dir_of};
pub use place::{Origin, Place, PlaceFault, place_of};
pub use request_target::push_port;
pub use roster::{Method, Origins, Request, Requests, Roster};
pub use site::{Site, Target, same_origin, same_site, same_target};
pub use space::{Scheme, Space, same_scheme, same_space};
pub use terms::{Algorithm, Qop, Terms, same_terms};
