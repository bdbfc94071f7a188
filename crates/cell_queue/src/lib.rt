//! A queue of the cells of a map, each under a key: an indexed binary heap in room that is made
//! once.
#![tactic(auto)]

mod heaps;
mod queues;

pub use queues::CellQueue;
