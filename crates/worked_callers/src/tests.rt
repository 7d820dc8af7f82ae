//! Worked histories by callers of one shared book: on one thread, and by four threads.

mod callers;
mod crew;
mod four;
mod ground;
mod naming;
mod readings;
mod rows;
mod sharing;
