//! Tests of calls that no other crate's tests or rows show. It has no code of its own.
#![tactic(auto)]

#[cfg(test)]
mod tests;
