//! Tests of the derived forms of the connectives: what each gives on written terms, and each of its refusals.
#![tactic(auto)]

#[cfg(test)]
mod conjunctions;
#[cfg(test)]
mod disjunctions;
#[cfg(test)]
mod equality;
#[cfg(test)]
mod implications;
#[cfg(test)]
mod negations;
#[cfg(test)]
mod tried;
#[cfg(test)]
mod truths;
