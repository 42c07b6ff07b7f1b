//! Tests of the libraries: what no clause says, each public call with ample memory, and faults one at a time.
#![tactic(auto)]

#[cfg(test)]
mod deep;
#[cfg(test)]
mod full;
#[cfg(test)]
mod matching;
#[cfg(test)]
mod outside;
#[cfg(test)]
mod print;
#[cfg(test)]
mod terms;
