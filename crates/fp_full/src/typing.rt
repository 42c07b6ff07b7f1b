//! Types whose parts are read.
ghost use Rattle.std.specs.Prelude.{◌≡◌, ◌∷◌, ◌++◌, [], IfOk, cond, Some, None};
ghost use Rattle.std.specs.Option.{option_map};
ghost use Rattle.fp_term.specs.Names.{is_name};
ghost use Rattle.fp_term.specs.Types.{applied, variable};
ghost use Rattle.fp_full.specs.Machine.{typs, after_argument, closed_type, variable_word, type_due};
ghost use Rattle.fp_full.specs.Views.{state_of, nest_of, use_of, partials_of, variable_in};

use crate::nest::{Frame, Nest, deeper, pushed};
use crate::state::State;
use fp_term::{Name, Term, Ty, Tys};
use std::alloc::{AllocError, Global};

// What a whole type is for.
pub(crate) enum Use {
    Free(Name),
    Constant(Name),
    Bound,
}

impl Drop for Use {
    fn drop(self) {
        match self {
            Use::Free(_) => {}
            Use::Constant(_) => {}
            Use::Bound => {}
        }
    }
}

// A type that is open, with its arguments so far.
#[derive(Drop)]
pub(crate) struct Partial {
    pub(crate) name: Name,
    pub(crate) args: Vec<Ty>,
}

impl Use {
    // After the whole type.
    fn after(self, alloc: Global, ty: Ty, nest: Nest) -> Result<State, AllocError>
        ensures { IfOk result (λ state. state_of state ≡ Rattle.fp_full.specs.Machine.after_type ty (use_of self) (nest_of nest)) }
    {
        match self {
            Use::Free(name) => Ok(State::CloseDue(Term::free(alloc, name, ty)?, nest)),
            Use::Constant(name) => Ok(State::CloseDue(Term::constant(alloc, name, ty)?, nest)),
            Use::Bound => Ok(State::TermDue(deeper(nest, Frame::Body(ty))?)),
        }
    }
}

// With one more argument in the innermost open type.
fn with_argument(
    partials: Vec<Partial>,
    innermost: Partial,
    ty: Ty,
) -> Result<Vec<Partial>, AllocError>
    ensures { IfOk result (λ more. partials_of more.items ≡ record { name = innermost.name; args = innermost.args.items ++ ty ∷ [] } ∷ partials_of partials.items) }
{
    let Partial { name, args } = innermost;
    let args = pushed(args, ty)?;
    pushed(partials, Partial { name, args })
}

// After a type: it is an argument of the innermost open type, or whole.
fn after_type(
    alloc: Global,
    ty: Ty,
    role: Use,
    partials: Vec<Partial>,
    nest: Nest,
) -> Result<State, AllocError>
    ensures { IfOk result (λ state. state_of state ≡ after_argument ty (use_of role) (partials_of partials.items) (nest_of nest)) }
{
    let mut partials = partials;
    match partials.pop() {
        None => role.after(alloc, ty, nest),
        Some(innermost) => Ok(State::TypeDue(role, with_argument(partials, innermost, ty)?, nest)),
    }
}

// The list of these types.
fn list_of(alloc: Global, args: Vec<Ty>) -> Result<Tys, AllocError>
    ensures { IfOk result (λ tys. tys ≡ typs args.items) }
{
    let mut args = args;
    let mut tys = Tys::end(alloc)?;
    while let Some(ty) = args.pop() {
        tys = Tys::more(alloc, ty, tys)?;
    }
    Ok(tys)
}

fn closed(alloc: Global, partial: Partial) -> Result<Ty, AllocError>
    ensures { IfOk result (λ ty. ty ≡ applied partial.name (typs partial.args.items)) }
{
    let Partial { name, args } = partial;
    Ty::con(alloc, name, list_of(alloc, args)?)
}

pub(crate) fn close_type(
    alloc: Global,
    role: Use,
    partials: Vec<Partial>,
    nest: Nest,
) -> Result<Option<State>, AllocError>
    ensures { IfOk result (λ state. option_map state_of state ≡ closed_type (use_of role) (partials_of partials.items) (nest_of nest)) }
{
    let mut partials = partials;
    match partials.pop() {
        None => Ok(None),
        Some(innermost) => Ok(Some(after_type(
            alloc,
            closed(alloc, innermost)?,
            role,
            partials,
            nest,
        )?)),
    }
}

// The type variable of these bytes, if they have a name's form.
fn variable_named(alloc: Global, name: &[u8]) -> Result<Option<Ty>, AllocError>
    ensures { IfOk result (λ ty. ty ≡ cond (is_name name.now) (Some (variable name.now)) None) }
{
    match Name::new(alloc, name)? {
        Some(name) => Ok(Some(Ty::var(alloc, name)?)),
        None => Ok(None),
    }
}

// The type variable whose text the word is.
fn variable_of(alloc: Global, text: &[u8]) -> Result<Option<Ty>, AllocError>
    ensures { IfOk result (λ ty. ty ≡ variable_in text.now) }
{
    let Some((first, name)) = text.split_first() else {
        return Ok(None);
    };
    if *first != b'\'' {
        return Ok(None);
    }
    variable_named(alloc, name)
}

pub(crate) fn after_variable(
    alloc: Global,
    text: &[u8],
    role: Use,
    partials: Vec<Partial>,
    nest: Nest,
) -> Result<Option<State>, AllocError>
    ensures { IfOk result (λ state. option_map state_of state ≡ variable_word text.now (use_of role) (partials_of partials.items) (nest_of nest)) }
{
    match variable_of(alloc, text)? {
        Some(ty) => Ok(Some(after_type(alloc, ty, role, partials, nest)?)),
        None => Ok(None),
    }
}

pub(crate) fn after_type_name(
    alloc: Global,
    text: &[u8],
    role: Use,
    partials: Vec<Partial>,
    nest: Nest,
) -> Result<Option<State>, AllocError>
    ensures { IfOk result (λ state. option_map state_of state ≡ cond (is_name text.now) (Some (type_due (use_of role) (record { name = text.now; args = [] } ∷ partials_of partials.items) (nest_of nest))) None) }
{
    match Name::new(alloc, text)? {
        Some(name) => {
            let args = Vec::new(alloc);
            let partials = pushed(partials, Partial { name, args })?;
            Ok(Some(State::TypeDue(role, partials, nest)))
        }
        None => Ok(None),
    }
}
