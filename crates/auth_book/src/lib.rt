//! A book that keeps an index beside its journal, so that no reply is looked for among its entries.
#![tactic(auto)]

mod book;
mod decide;
mod index;
pub mod laws;
mod partitions;
mod reads;
mod rows;
mod sites;
mod tells;

pub use book::AuthBook;
pub use index::{BookIndex, RequestRow, SpaceRow};
pub use partitions::{PartRow, PartRows};
pub use rows::Rows;

pub type SpaceRows = Rows<SpaceRow>;

pub type PromptSpaces = Rows<u32>;

pub type RequestRows = Rows<RequestRow>;

pub type Epochs = Rows<u32>;
