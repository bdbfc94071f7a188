//! Fields of distances under changes of the map: counts of their repairs, and a plain search beside them.
pub mod build;
mod examples;
mod random;
