//! The tests of `plain_rounds`.
#![tactic(auto)]

#[cfg(test)]
mod tests;
