//! What an application in a right side is.

use fp_group::{CongRule, Head};
use fp_meaning::Setting;
use fp_term::{Items, Name, Node, Term, Ty, match_ty};
use std::alloc::{AllocError, Global};

/// A function of the group: its index, and how many arguments it takes.
#[derive(Clone, Copy)]
pub(crate) struct Callee {
    pub index: usize,
    pub arity: usize,
}

/// A congruence rule, and the types at which its constant has the type at hand.
#[derive(Drop)]
pub(crate) struct Found<'a> {
    pub rule: &'a CongRule,
    pub types: Items<(Name, Ty)>,
}

/// What an application is.
#[derive(Drop)]
pub(crate) enum Form<'a> {
    Call(Callee),
    ByRule(Found<'a>),
    Plain,
}

// The function of that name.
fn callee_of(heads: &[Head], name: &Name) -> Option<Callee> {
    for index in 0..heads.len() {
        if heads[index].name.equals(name) {
            return Some(Callee {
                index,
                arity: heads[index].args.as_slice().len(),
            });
        }
    }
    None
}

fn types_for(
    alloc: Global,
    rule: &CongRule,
    name: &Name,
    ty: &Ty,
) -> Result<Option<Items<(Name, Ty)>>, AllocError> {
    if rule.constant.equals(name) {
        match_ty(alloc, &rule.ty, ty)
    } else {
        Ok(None)
    }
}

// The first rule for the constant.
fn rule_for<'a>(
    alloc: Global,
    rules: &'a [CongRule],
    name: &Name,
    ty: &Ty,
) -> Result<Option<Found<'a>>, AllocError> {
    for rule in rules {
        if let Some(types) = types_for(alloc, rule, name, ty)? {
            return Ok(Some(Found { rule, types }));
        }
    }
    Ok(None)
}

// The rule, where there are arguments for all its premises.
fn by_rule(found: Option<Found<'_>>, count: usize) -> Form<'_> {
    match found {
        Some(found) => if count < found.rule.premises.as_slice().len() {
            Form::Plain
        } else {
            Form::ByRule(found)
        },
        None => Form::Plain,
    }
}

fn form_of_constant<'g>(
    alloc: Global,
    setting: &Setting<'g>,
    name: &Name,
    ty: &Ty,
    count: usize,
) -> Result<Form<'g>, AllocError> {
    let group = setting.group;
    match callee_of(group.heads.as_slice(), name) {
        Some(callee) => Ok(Form::Call(callee)),
        None => Ok(by_rule(
            rule_for(alloc, group.rules.rules.as_slice(), name, ty)?,
            count,
        )),
    }
}

/// What the head makes of so many arguments.
pub(crate) fn form_of<'g>(
    alloc: Global,
    setting: &Setting<'g>,
    head: &Term,
    count: usize,
) -> Result<Form<'g>, AllocError> {
    match head.node() {
        Node::Const { name, ty } => form_of_constant(alloc, setting, name, ty, count),
        _ => Ok(Form::Plain),
    }
}
