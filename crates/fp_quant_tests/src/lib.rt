//! Tests of the derived forms of the quantifiers and of the conversions: what each gives on written terms, and each of
//! its refusals.
#![tactic(auto)]

#[cfg(test)]
mod conversions;
#[cfg(test)]
mod quantifiers;
#[cfg(test)]
mod rewriting;
#[cfg(test)]
mod tried;
