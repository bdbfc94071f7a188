//! Tests of the crates below a desk, of what no session tells: counts of repairs, fields, the index and
//! the ledgers beside plain programs, the time of many changes, and calls whose growths are refused in
//! turn. It has tests alone.
#![tactic(auto)]

#[cfg(test)]
mod tests;
