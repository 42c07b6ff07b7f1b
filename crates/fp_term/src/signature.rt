//! Signatures, and what of a term they don't declare.
ghost use Rattle.std.specs.Prelude.{◌≡◌, ◌==◌, None, IfOk, MatchOption};
ghost use Rattle.std.specs.Option.{option_copied};
ghost use Rattle.fp_term.specs.Types.{count, found_type, is_instance};

use crate::arities::Arities;
use crate::consts::Consts;
use crate::matching::match_ty;
use crate::name::Name;
use crate::term::{Node, Term};
use crate::ty::{Ty, TyNode, Tys, TysNode};
use std::alloc::{AllocError, Global};

/// The type constructors with the number of their arguments, and the constants with their types.
#[derive(Drop)]
pub struct Signature {
    pub types: Arities,
    pub consts: Consts,
}

fn is_count(tys: &Tys, number: u32) -> bool
    ensures { result ≡ (count tys.now == number) }
{
    match tys.node() {
        TysNode::End => number == 0,
        TysNode::More { rest, .. } => number > 0 && is_count(rest, number - 1),
    }
}

fn is_instance_of(alloc: Global, declared: &Ty, ty: &Ty) -> Result<bool, AllocError>
    ensures { IfOk result (λ yes. yes ≡ is_instance declared.now ty.now) }
{
    Ok(match_ty(alloc, declared, ty)?.is_some())
}

impl Signature {
    ghost use Rattle.fp_term.specs.Signatures.{arity_of, has_count, has_instance, unknown_in, unknown_in_type, unknown_in_types, IsType, IsOver};

    /// An equal signature.
    pub fn copy(&self, alloc: Global) -> Result<Signature, AllocError>
        ensures { IfOk result (λ signature. signature ≡ self.now) }
    {
        Ok(Signature {
            types: self.types.copy(alloc)?,
            consts: self.consts.copy(alloc)?,
        })
    }

    /// How many arguments the type constructor has.
    pub fn arity(&self, name: &Name) -> Option<u32>
        ensures { result ≡ arity_of name.now self.now.types }
    {
        self.types.find(name)
    }

    /// The declared type of the constant.
    pub fn const_type(&self, name: &Name) -> Option<&Ty>
        ensures { option_copied result ≡ found_type name.now self.now.consts }
    {
        self.consts.find(name)
    }

    fn takes(&self, name: &Name, args: &Tys) -> bool
        ensures { result ≡ has_count (arity_of name.now self.now.types) (count args.now) }
    {
        match self.arity(name) {
            Some(number) => is_count(args, number),
            None => false,
        }
    }

    /// The type's first constructor from the left that isn't in the signature with so many arguments.
    #[cycle(unknown)]
    #[tactic(auto, using(crate::proofs::Known::type_known, crate::proofs::Known::unknown_type_outside))]
    pub fn unknown_in_type<'a>(&self, ty: &'a Ty) -> Option<&'a Name>
        ensures exact { option_copied result ≡ unknown_in_type self.now ty.now }
        ensures over { MatchOption result (IsType self.now ty.now) (λ _. IsType self.now ty.now → ⊥) }
    {
        match ty.node() {
            TyNode::Var(_) => None,
            TyNode::Con { name, args } => {
                if self.takes(name, args) {
                    self.unknown_in_types(args)
                } else {
                    Some(name)
                }
            }
        }
    }

    #[cycle(unknown)]
    fn unknown_in_types<'a>(&self, tys: &'a Tys) -> Option<&'a Name>
        ensures { option_copied result ≡ unknown_in_types self.now tys.now }
    {
        match tys.node() {
            TysNode::End => None,
            TysNode::More { first, rest } => match self.unknown_in_type(first) {
                Some(name) => Some(name),
                None => self.unknown_in_types(rest),
            },
        }
    }

    fn has_constant(&self, alloc: Global, name: &Name, ty: &Ty) -> Result<bool, AllocError>
        ensures { IfOk result (λ yes. yes ≡ has_instance (found_type name.now self.now.consts) ty.now) }
    {
        match self.const_type(name) {
            Some(declared) => is_instance_of(alloc, declared, ty),
            None => Ok(false),
        }
    }

    fn find_unknown<'a>(
        &self,
        alloc: Global,
        term: &'a Term,
    ) -> Result<Option<&'a Name>, AllocError>
        ensures { IfOk result (λ o. option_copied o ≡ unknown_in self.now term.now) }
    {
        match term.node() {
            Node::Bound(_) => Ok(None),
            Node::Free { ty, .. } => Ok(self.unknown_in_type(ty)),
            Node::Const { name, ty } => {
                if self.has_constant(alloc, name, ty)? {
                    Ok(self.unknown_in_type(ty))
                } else {
                    Ok(Some(name))
                }
            }
            Node::App { fun, arg } => match self.find_unknown(alloc, fun)? {
                Some(name) => Ok(Some(name)),
                None => self.find_unknown(alloc, arg),
            },
            Node::Abs { ty, body } => match self.unknown_in_type(ty) {
                Some(name) => Ok(Some(name)),
                None => self.find_unknown(alloc, body),
            },
        }
    }

    /// The term's first name from the left that isn't in the signature as it stands there: a constant at a type that
    /// isn't an instance of its own, or a type constructor with another number of arguments.
    #[tactic(auto, using(crate::proofs::Known::known, crate::proofs::Known::unknown_outside))]
    pub fn unknown_name<'a>(
        &self,
        alloc: Global,
        term: &'a Term,
    ) -> Result<Option<&'a Name>, AllocError>
        ensures exact { IfOk result (λ o. option_copied o ≡ unknown_in self.now term.now) }
        ensures over { IfOk result (λ o. MatchOption o (IsOver self.now term.now) (λ _. IsOver self.now term.now → ⊥)) }
    {
        self.find_unknown(alloc, term)
    }
}
