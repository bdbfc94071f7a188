//! Tests of desks, shared desks, sessions, journals, audits and runs by calls: worked examples, ample
//! memory and too little, several planners, threads, and random commits beside plain programs.
#![tactic(auto)]

#[cfg(test)]
mod tests;
