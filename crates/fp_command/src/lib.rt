//! Commands carried out on a theory and on sources of measures, and the text of a file of them.
#![tactic(auto)]

mod command;
mod constructors;
mod definition;
mod fault;
mod group;
mod lemma;
mod measure;
mod names;
mod report;
mod rules;
mod stated;
mod terms;
mod typedef;

pub use report::{Text, report_on, unread};
