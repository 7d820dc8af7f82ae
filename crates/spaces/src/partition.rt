//! Names of partitions: credentials of one are never used in another, as a browser keeps the
//! credentials that one top-level site caused apart from those of another.

ghost use Rattle.std.specs.Prelude.{◌≡◌, true};
ghost use Rattle.std.specs.List.{list_all};
ghost use Rattle.auth_text.specs.Gives.{GivesBy};
ghost use Rattle.spaces.specs.Partitions.{is_name_byte, is_partition, partition};

use auth_text::Bytes;
use std::alloc::Global;
use std::marker::Model;
use thiserror::Error;

/// Why bytes are no name of a partition.
#[derive(Clone, Copy, Debug, PartialEq, Eq, Error)]
pub enum PartitionFault {
    /// Not 1 to 64 bytes out of `a-z`, `0-9`, `.`, `_` and `-`.
    #[error("no name of a partition")]
    BadName,
    #[error("no memory")]
    NoMemory,
}

/// The name of a partition: 1 to 64 bytes out of `a-z`, `0-9`, `.`, `_` and `-`.
#[derive(Clone, Debug, Drop, PartialEq, Eq)]
pub struct Partition {
    name: Bytes,
}

impl Model for Partition {
    ghost use Rattle.std.specs.Prelude.{List, ℕ, IsTrue};
    ghost use Rattle.spaces.specs.Partitions.{is_partition};

    ghost Value = { List ℕ };

    ghost view = { λ p. p.name };

    ghost invariant = { λ p. IsTrue (is_partition p.name) };

    ghost inverse = { λ name. record { name = name } };
}

fn is_name_byte(b: u8) -> bool
    ensures { result ≡ is_name_byte b }
{
    b.is_ascii_lowercase() || b.is_ascii_digit() || b == b'.' || b == b'_' || b == b'-'
}

fn are_name_bytes(name: &[u8]) -> bool
    ensures { result ≡ list_all is_name_byte name.now }
{
    name.iter().all(|b| is_name_byte(*b))
}

fn is_partition(name: &[u8]) -> bool
    ensures { result ≡ is_partition name.now }
{
    !name.is_empty() && name.len() <= 64 && are_name_bytes(name)
}

impl Partition {
    /// The partition of that name. `BadName` comes exactly where the bytes are no such name.
    pub fn new(alloc: Global, name: &[u8]) -> Result<Partition, PartitionFault>
        ensures { GivesBy PartitionFault.NoMemory (λ p. p) result (partition name.now) }
    {
        if !is_partition(name) {
            return Err(PartitionFault::BadName);
        }
        match Bytes::from_slice(alloc, name) {
            Ok(name) => Ok(Partition { name }),
            Err(_) => Err(PartitionFault::NoMemory),
        }
    }

    /// The bytes of the name.
    pub fn name(&self) -> &[u8]
        ensures value { result.now ≡ self.now }
        ensures fit { is_partition self.now ≡ true }
    {
        self.name.as_slice()
    }
}
