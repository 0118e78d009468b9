//! Tests of the crates' public calls.
#![tactic(auto)]

#[cfg(test)]
mod tests;
