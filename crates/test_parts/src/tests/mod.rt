//! What tests share, by crates from the lowest on, and want of memory.
mod build;
mod changes;
mod comparisons;
mod conflicts;
mod fields;
mod fleets;
mod kept;
mod lanes;
mod memory;
mod random;
mod records;
mod rows;
mod streams;
mod times;
mod walks;
