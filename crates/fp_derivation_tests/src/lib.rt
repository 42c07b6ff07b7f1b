//! Tests of derivations by the rules of the logic, and of theorems after later definitions.
#![tactic(auto)]

#[cfg(test)]
mod derived;
#[cfg(test)]
mod later;
