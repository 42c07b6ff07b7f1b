//! The signature over which the terms are typed.
ghost use Rattle.std.specs.Prelude.{◌≡◌, ◌++◌, ◌∷◌, [], IfOk, IsTrue};
ghost use Rattle.fp_infer.specs.Elaborated.{AreTypesIn};
ghost use Rattle.fp_typed_terms.specs.SmallSignature.{DeclaresTypes, IsSmall};

use fp_full::read_full_term;
use fp_term::{Arities, Consts, Name, Node, Signature, Ty, function_name};
use std::alloc::{AllocError, Global};

const TYPES: [(&str, u32); 8] = [
    ("bool", 0),
    ("fun", 2),
    ("ind", 0),
    ("nat", 0),
    ("list", 1),
    ("prod", 2),
    ("sum", 2),
    ("triple", 3),
];

const CONSTANTS: [&str; 26] = [
    "(c T (bool))",
    "(c F (bool))",
    "(c eq (fun 'a (fun 'a (bool))))",
    "(c and (fun (bool) (fun (bool) (bool))))",
    "(c or (fun (bool) (fun (bool) (bool))))",
    "(c imp (fun (bool) (fun (bool) (bool))))",
    "(c not (fun (bool) (bool)))",
    "(c all (fun (fun 'a (bool)) (bool)))",
    "(c ex (fun (fun 'a (bool)) (bool)))",
    "(c select (fun (fun 'a (bool)) 'a))",
    "(c Zero (nat))",
    "(c Suc (fun (nat) (nat)))",
    "(c plus (fun (nat) (fun (nat) (nat))))",
    "(c times (fun (nat) (fun (nat) (nat))))",
    "(c less (fun (nat) (fun (nat) (bool))))",
    "(c leq (fun (nat) (fun (nat) (bool))))",
    "(c If (fun (bool) (fun 'a (fun 'a 'a))))",
    "(c Pair (fun 'a (fun 'b (prod 'a 'b))))",
    "(c fst (fun (prod 'a 'b) 'a))",
    "(c snd (fun (prod 'a 'b) 'b))",
    "(c Nil (list 'a))",
    "(c Cons (fun 'a (fun (list 'a) (list 'a))))",
    "(c map (fun (fun 'a 'b) (fun (list 'a) (list 'b))))",
    "(c Inl (fun 'a (sum 'a 'b)))",
    "(c twin (fun 'a (prod 'a 'a)))",
    "(c three (fun 'c (fun 'a (triple 'a 'b 'c))))",
];

// The name of the text.
fn name_of(alloc: Global, text: &str) -> Result<Name, AllocError> {
    Name::new(alloc, text.as_bytes())?.ok_or(AllocError)
}

// The constant of the text with its type.
fn declared(alloc: Global, text: &str) -> Result<(Name, Ty), AllocError> {
    let bytes = text.as_bytes();
    if bytes.len() >= 4294967296 {
        return Err(AllocError);
    }
    let Ok(term) = read_full_term(alloc, bytes) else {
        return Err(AllocError);
    };
    match term.node() {
        Node::Const { name, ty } => Ok((name.copy()?, ty.copy()?)),
        _ => Err(AllocError),
    }
}

fn small_types(alloc: Global) -> Result<Arities, AllocError> {
    let mut types = Arities::new(alloc)?;
    for (name, arity) in TYPES {
        types.push((name_of(alloc, name)?, arity))?;
    }
    Ok(types)
}

// The signature with one constant more.
#[tactic(auto, using(crate::proofs::Sound::declares_one))]
fn with_constant(signature: Signature, name: Name, ty: Ty) -> Result<Signature, AllocError>
    requires { DeclaresTypes signature }
    ensures { IfOk result (λ s. DeclaresTypes s) }
{
    if signature.unknown_in_type(&ty).is_some() {
        return Err(AllocError);
    }
    let Signature { types, mut consts } = signature;
    consts.push((name, ty))?;
    Ok(Signature { types, consts })
}

fn without_constants(alloc: Global) -> Result<Signature, AllocError>
    ensures { IfOk result (λ s. DeclaresTypes s) }
{
    let types = small_types(alloc)?;
    let consts = Consts::new(alloc)?;
    Ok(Signature { types, consts })
}

fn with_constants(alloc: Global) -> Result<Signature, AllocError>
    ensures { IfOk result (λ s. DeclaresTypes s) }
{
    let mut signature = without_constants(alloc)?;
    for text in CONSTANTS {
        let (name, ty) = declared(alloc, text)?;
        signature = with_constant(signature, name, ty)?;
    }
    Ok(signature)
}

/// The signature, whose constants have types of it.
pub fn small(alloc: Global) -> Result<Signature, AllocError>
    ensures { IfOk result (λ s. IsSmall s) }
{
    let signature = with_constants(alloc)?;
    if signature.arity(&function_name(alloc)?) == Some(2) {
        Ok(signature)
    } else {
        Err(AllocError)
    }
}

/// Are they types of the signature?
pub fn are_types(signature: &Signature, pairs: &[(Name, Ty)]) -> bool
    ensures { IsTrue result → AreTypesIn signature.now pairs.now }
{
    match pairs {
        [] => true,
        [first, rest @ ..] => {
            signature.unknown_in_type(&first.1).is_none() && are_types(signature, rest)
        }
    }
}

/// The variables whose types are given to the terms of proof lines.
pub fn given(alloc: Global) -> Result<Vec<(Name, Ty)>, AllocError> {
    let mut pairs = Vec::new(alloc);
    for text in ["(c x (nat))", "(c f (fun 'a 'a))", "(c p (prod 'a 'b))"] {
        pairs.push(declared(alloc, text)?)?;
    }
    Ok(pairs)
}

/// The type of truth values.
pub fn truth_type(alloc: Global) -> Result<Ty, AllocError> {
    Ok(declared(alloc, "(c T (bool))")?.1)
}
