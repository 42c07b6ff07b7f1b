//! Tests of the kernel: each rule of the logic and each of its refusals on written terms, the statements that the logic
//! begins with, and definitions.
#![tactic(auto)]

#[cfg(test)]
mod calls;
#[cfg(test)]
mod definitions;
#[cfg(test)]
mod rules;
