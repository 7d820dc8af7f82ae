//! A caller that shares a book between threads, as an embedder would write it.
#![tactic(auto)]

mod sharing;

pub use sharing::{Served, begin_and_draw, serve_two, side_by_side};

#[cfg(test)]
mod tests;
