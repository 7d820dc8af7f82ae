//! What a dialer in memory dialed, wrote and read, with its place in each open link's stream, so
//! that a read needn't go over what was read before. A dialer of one's own keeps one of these and
//! takes the three lists that `Dialer` speaks of from it.

ghost use Rattle.std.specs.Prelude.{◌≡◌, ◌+◌, ◌^◌, ◌<◌, [], ◌∷◌, ◌++◌, true, false, map, length};
ghost use Rattle.std.specs.Prelude.{OnOk, OnErr};
ghost use Rattle.link_trait.specs.declared.dialer.Traffic.TheVariants.{Sent, Received, Ended};
ghost use Rattle.link_trait.specs.Links.{has_link, has_dial, has_ended, without_link, heard_on};
ghost use Rattle.link_trait.specs.Recorded.{IsKept, place_in, moved, closed};

use crate::dialer::{Dial, Traffic};
use crate::links::{LinkName, same_link};
use auth_text::{Bytes, Items, NoMemory};
use spaces::{Origin, copy_origin};
use std::alloc::Global;
use std::marker::Model;

/// An open link, and how many bytes of its stream were read.
#[derive(Clone, Copy, Debug)]
pub(crate) struct OpenLink {
    name: LinkName,
    place: usize,
}

/// The dials, what went over the links, and the open links.
#[derive(Drop)]
pub struct LinkLog {
    alloc: Global,
    dials: Items<Dial>,
    traffic: Items<Traffic>,
    open: Vec<OpenLink>,
}

impl Model for LinkLog {
    ghost use Rattle.std.specs.Prelude.{◌≡◌, true};
    ghost use Rattle.link_trait.specs.Links.{are_dialed, are_ended_last};
    ghost use Rattle.link_trait.specs.Recorded.{LogState, are_placed, names_of};

    ghost Value = { LogState };

    ghost view = { λ it.
        record { dials = it.dials; traffic = it.traffic; opened = names_of it.«open».items } };

    ghost invariant = { λ it. (are_dialed it.traffic it.dials ≡ true)
        × (are_placed it.«open».items it.dials it.traffic ≡ true)
        × (are_ended_last it.traffic ≡ true) };
}

// How many bytes were read on the link.
fn place_in(open: &[OpenLink], name: LinkName) -> usize
    ensures { result ≡ place_in name «open».now }
{
    for link in open {
        if same_link(link.name, name) {
            return link.place;
        }
    }
    0
}

// The link, at the place if it is the named one.
fn moved(link: OpenLink, name: LinkName, place: usize) -> OpenLink
    ensures { result ≡ moved name place link }
{
    let place = if same_link(name, link.name) {
        place
    } else {
        link.place
    };
    OpenLink {
        name: link.name,
        place,
    }
}

fn move_to(open: &mut Vec<OpenLink>, name: LinkName, place: usize)
    ensures { «open».new.items ≡ map (moved name place) «open».old.items }
{
    for link in open.iter_mut() {
        *link = moved(*link, name, place);
    }
}

fn close_link(open: &mut Vec<OpenLink>, name: LinkName)
    ensures { «open».new.items ≡ closed name «open».old.items }
{
    open.retain(|link| !same_link(link.name, name));
}

impl LinkLog {
    /// Nothing was dialed.
    pub fn new(alloc: Global) -> LinkLog
        ensures { result ≡ record { dials = []; traffic = []; opened = [] } }
    {
        LinkLog {
            alloc,
            dials: Items::new(alloc),
            traffic: Items::new(alloc),
            open: Vec::new(alloc),
        }
    }

    /// The link was dialed, and is open.
    pub fn dialed(&mut self, name: LinkName, to: &Origin) -> Result<(), NoMemory>
        requires { has_dial name self.old.dials ≡ false }
        ensures ok { OnOk result (self.new
            ≡ record {
              dials = self.old.dials ++ record { link = name; to = to.now } ∷ [];
              traffic = self.old.traffic;
              opened = self.old.opened ++ name ∷ [];
            }) }
        ensures err { OnErr result (self.new ≡ self.old) }
        ensures kept { IsKept self.new }
    {
        self.open.reserve(1)?;
        let to = copy_origin(to)?;
        self.dials.push(Dial { link: name, to })?;
        self.open.push_reserved(OpenLink { name, place: 0 });
        Ok(())
    }

    /// The bytes were written to the link.
    pub fn sent(&mut self, name: LinkName, bytes: &[u8]) -> Result<(), NoMemory>
        requires { has_link name self.old.opened ≡ true }
        ensures ok { OnOk result (self.new
            ≡ record {
              dials = self.old.dials;
              traffic = self.old.traffic ++ Sent name bytes.now ∷ [];
              opened = self.old.opened;
            }) }
        ensures err { OnErr result (self.new ≡ self.old) }
        ensures kept { IsKept self.new }
    {
        let bytes = Bytes::from_slice(self.alloc, bytes)?;
        self.traffic.push(Traffic::Sent { link: name, bytes })?;
        Ok(())
    }

    /// The bytes were read from the link.
    pub fn received(&mut self, name: LinkName, bytes: &[u8]) -> Result<(), NoMemory>
        requires open { has_link name self.old.opened ≡ true }
        requires more { has_ended name self.old.traffic ≡ false }
        requires fit { length (heard_on name self.old.traffic) + length bytes.now < 2 ^ 64 }
        ensures ok { OnOk result (self.new
            ≡ record {
              dials = self.old.dials;
              traffic = self.old.traffic
                  ++ Received name bytes.now ∷ [];
              opened = self.old.opened;
            }) }
        ensures err { OnErr result (self.new ≡ self.old) }
        ensures kept { IsKept self.new }
    {
        let place = self.place(name) + bytes.len();
        let bytes = Bytes::from_slice(self.alloc, bytes)?;
        self.traffic.push(Traffic::Received { link: name, bytes })?;
        move_to(&mut self.open, name, place);
        Ok(())
    }

    /// The link's end was read.
    pub fn ended(&mut self, name: LinkName) -> Result<(), NoMemory>
        requires { has_link name self.old.opened ≡ true }
        ensures ok { OnOk result (self.new
            ≡ record {
              dials = self.old.dials;
              traffic = self.old.traffic ++ Ended name ∷ [];
              opened = self.old.opened;
            }) }
        ensures err { OnErr result (self.new ≡ self.old) }
        ensures kept { IsKept self.new }
    {
        self.traffic.push(Traffic::Ended { link: name })?;
        Ok(())
    }

    /// The link is closed.
    pub fn closed(&mut self, name: LinkName)
        ensures log { self.new ≡ record {
          dials = self.old.dials;
          traffic = self.old.traffic;
          opened = without_link name self.old.opened;
        } }
        ensures kept { IsKept self.new }
    {
        close_link(&mut self.open, name);
    }

    /// How many bytes were read from the open link.
    pub fn place(&self, name: LinkName) -> usize
        requires { has_link name self.now.opened ≡ true }
        ensures { result ≡ length (heard_on name self.now.traffic) }
    {
        place_in(self.open.as_slice(), name)
    }
}
