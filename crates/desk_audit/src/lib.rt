//! The report of a scene, made from scratch: in pieces, each by a thread of its own, or with no thread.
//!
//! `sightings` is a share of the index, filed in `tables`; `indexing` starts a thread for each share,
//! `shares` looks up in all, and the index is lent. `threads` starts a thread for
//! each piece, under a promise that says what its part is; a part (`parts`) is made by `entries`, with
//! `adding` for what an agent meets and `movers` for the rings, by `visits` and by `lines`, whose lower
//! bounds `piece_bounds` notes and `bounds` makes. The entries of a part are in order, so that `audits`,
//! which puts the parts together, only merges them.
#![tactic(auto)]

mod adding;
mod audits;
mod bounds;
mod entries;
mod faults;
mod gates;
mod indexing;
mod lines;
mod links;
mod movers;
mod parts;
mod piece_bounds;
mod shares;
mod sightings;
mod tables;
mod threads;
mod visits;

pub use audits::{audit, audit_alone};
pub use faults::AuditFault;
pub use gates::{Gate, NoGate};
