//! Storage partitions are alone with a book that they share: what one of them may ask, and what
//! it is told, depends on its own requests and on nothing that another partition does. The
//! crate has no code: what it says is proved of the definitions and of every book.
#![tactic(auto)]

mod books;
pub mod laws;
pub mod worked;

pub use books::journal_is_alone_in_each_partition;
