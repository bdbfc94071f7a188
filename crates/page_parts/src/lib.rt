//! What a page for a browser is made of beside its texts: its looks, and its script.
#![tactic(auto)]

mod looks;
mod script;

pub use looks::LOOKS;
pub use script::SCRIPT;
