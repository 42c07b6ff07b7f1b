//! Tests of measures: what their sources keep of what they are told, and what is generated of them.
#![tactic(auto)]

#[cfg(test)]
mod generating;
#[cfg(test)]
mod sources;
#[cfg(test)]
mod written;
