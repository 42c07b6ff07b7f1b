//! Tests of groups: their clauses completed, the call sites of these, the terms that they are defined by, and what is proved of them.
#![tactic(auto)]

#[cfg(test)]
mod completion;
#[cfg(test)]
mod groups;
#[cfg(test)]
mod rules;
#[cfg(test)]
mod sites;
#[cfg(test)]
mod tried;
#[cfg(test)]
mod written;
