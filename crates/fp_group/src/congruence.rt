//! Congruence rules: under which variables and guards each argument of a constant is evaluated (Krauss 2009, section 3.3).
ghost use Rattle.std.specs.Prelude.{◌≡◌, IfOk};

use crate::copying::{copy_types, copy_variables};
use fp_term::{Items, Name, Term, Ty, copy_all};
use std::alloc::{AllocError, Global};

/// A premise `!v1 .. vk. G1 --> .. --> Gr --> xi v1 .. vk = yi v1 .. vk`.
#[derive(Drop)]
pub struct CongPremise {
    /// The argument `i` that it speaks of, from 1.
    pub position: u32,
    /// The types of its variables.
    pub vars: Items<Ty>,
    /// Its guards, in which its variables are loose numbers, the last variable being 0.
    pub guards: Items<Term>,
}

impl CongPremise {
    /// An equal premise.
    pub fn copy(&self, alloc: Global) -> Result<CongPremise, AllocError>
        ensures { IfOk result (λ premise. premise ≡ self.now) }
    {
        Ok(CongPremise {
            position: self.position,
            vars: copy_types(alloc, self.vars.as_slice())?,
            guards: copy_all(alloc, self.guards.as_slice())?,
        })
    }
}

/// A congruence rule `A1 --> .. --> Am --> c x1 .. xm = c y1 .. ym`.
#[derive(Drop)]
pub struct CongRule {
    /// The name of the theorem.
    pub name: Name,
    /// The constant `c` and its type.
    pub constant: Name,
    pub ty: Ty,
    /// The variables `y1 .. ym`.
    pub ys: Items<(Name, Ty)>,
    /// The premises in their order, one for each argument.
    pub premises: Items<CongPremise>,
}

fn copy_premises(alloc: Global, premises: &[CongPremise]) -> Result<Items<CongPremise>, AllocError>
    ensures { IfOk result (λ copies. copies ≡ premises.now) }
{
    let mut copies = Items::new(alloc);
    for premise in premises {
        copies.push(premise.copy(alloc)?)?;
    }
    Ok(copies)
}

impl CongRule {
    /// An equal rule.
    pub fn copy(&self, alloc: Global) -> Result<CongRule, AllocError>
        ensures { IfOk result (λ rule. rule ≡ self.now) }
    {
        let ys = copy_variables(alloc, self.ys.as_slice())?;
        let premises = copy_premises(alloc, self.premises.as_slice())?;
        Ok(CongRule {
            name: self.name.copy()?,
            constant: self.constant.copy()?,
            ty: self.ty.copy()?,
            ys,
            premises,
        })
    }
}

/// The declared rules, in their order.
#[derive(Drop)]
pub struct CongTable {
    pub rules: Items<CongRule>,
}

impl CongTable {
    /// An equal table.
    pub fn copy(&self, alloc: Global) -> Result<CongTable, AllocError>
        ensures { IfOk result (λ table. table ≡ self.now) }
    {
        let mut rules = Items::new(alloc);
        for rule in self.rules.as_slice() {
            rules.push(rule.copy(alloc)?)?;
        }
        Ok(CongTable { rules })
    }
}
