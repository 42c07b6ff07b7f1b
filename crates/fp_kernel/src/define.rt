//! Definitions of constants and of types.
ghost use Rattle.std.specs.Prelude.{◌≡◌, [], ◌∷◌, length, IfOk, IfErr, OnErr, MatchResult};
ghost use Rattle.std.specs.Option.{option_copied};
ghost use Rattle.fp_term.specs.Types.{Typ};
ghost use Rattle.fp_term.specs.Terms.{Tm, constant};
ghost use Rattle.fp_term.specs.Typing.{function_type};
ghost use Rattle.fp_term.specs.Variables.{first_free_of, hidden_of, type_names_in};
ghost use Rattle.fp_conclude.specs.Logic.{equal};
ghost use Rattle.fp_conclude.specs.Outcomes.{gives, unless, not_closed, hidden_type};
ghost use Rattle.fp_conclude.specs.Checks.{typed_over};
ghost use Rattle.fp_kernel.specs.Definitions.{Within, new_constant, new_type};
ghost use Rattle.fp_kernel.specs.Start.{signature_of, distinct_after, applied_to, represented, abs_rep, rep_abs};
ghost use Rattle.fp_kernel.specs.Derivability.{Derives};
ghost use Rattle.fp_kernel.specs.Theorems.{IsTheorem, plain};
ghost use Rattle.fp_kernel.specs.Conservative.{IsConservative, IsNewConstant, IsNewType};
ghost use Rattle.fp_kernel.specs.Defining.{FaultIs, defining, Defines, first_taken, defining_type, DefinesType, MadeUnlessMemory};

use crate::definition::{self, Definitions};
use crate::defs::Defs;
use crate::fault::{self, DefFault};
use crate::new_type::{Described, arity, describe, inhabited_parts, with_constant, with_type};
use crate::parameters::parameters;
use crate::thm::Thm;
use fp_conclude::equation;
use fp_term::{Items, Name, Signature, Term, Ty, first_free, hidden_type, type_of};
use std::alloc::{AllocError, Global};

// The type, where no free variable and no hidden type variable of the body is in the way.
fn closed_at(body: &Term, ty: Ty) -> Result<Ty, DefFault>
    ensures { MatchResult result
        (λ s. unless not_closed (first_free_of body.now) (unless hidden_type (hidden_of body.now ty) (gives ty)) ≡ gives s)
        (λ fault. FaultIs fault (unless not_closed (first_free_of body.now) (unless hidden_type (hidden_of body.now ty) (gives ty)))) }
{
    if let Some(name) = first_free(body) {
        return Err(fault::not_closed(name));
    }
    if let Some(name) = hidden_type(body, &ty) {
        return Err(fault::hides_type(name));
    }
    Ok(ty)
}

// The type of the body, if it is well typed over the signature.
#[tactic(auto, unfolding(fp_conclude::specs::Checks::typed_over))]
fn typed_over(alloc: Global, signature: &Signature, body: &Term) -> Result<Ty, DefFault>
    ensures { MatchResult result (λ s. typed_over signature.now body.now ≡ gives s) (λ fault. FaultIs fault (typed_over signature.now body.now)) }
{
    if let Some(unknown) = signature.unknown_name(alloc, body)? {
        return Err(fault::unknown_name(unknown));
    }
    Ok(type_of(alloc, body)?)
}

// `name = body`
fn defining_equation(alloc: Global, name: &Name, ty: &Ty, body: &Term) -> Result<Term, AllocError>
    ensures { IfOk result (λ t. t ≡ equal ty.now (constant name.now ty.now) body.now) }
{
    let left = Term::constant(alloc, name.copy()?, ty.copy()?)?;
    equation(alloc, ty, &left, body)
}

// The first of the names that is there already, or is there twice.
fn first_taken<'a>(
    signature: &Signature,
    name: &'a Name,
    abs: &'a Name,
    rep: &'a Name,
) -> Option<&'a Name>
    ensures { option_copied result ≡ first_taken signature.now name.now abs.now rep.now }
{
    if signature.arity(name).is_some() {
        return Some(name);
    }
    if signature.const_type(abs).is_some() {
        return Some(abs);
    }
    if abs.equals(rep) || signature.const_type(rep).is_some() {
        return Some(rep);
    }
    None
}

// The theorems of a new type.
fn type_theorems(
    alloc: Global,
    list: &Definitions,
    made: Described,
) -> Result<(Thm, Thm), AllocError>
    requires abs_rep { Derives list.now [] [] made.abs_rep }
    requires rep_abs { Derives list.now [] [] made.rep_abs }
    ensures abs_rep { IfOk result (λ p. p.0 ≡ plain list.now made.abs_rep) }
    ensures rep_abs { IfOk result (λ p. p.1 ≡ plain list.now made.rep_abs) }
{
    let Described {
        to_new: _,
        to_old: _,
        abs_rep,
        rep_abs,
    } = made;
    let first = Thm::plain(alloc, list.copy()?, abs_rep);
    let second = Thm::plain(alloc, list.copy()?, rep_abs);
    Ok((first, second))
}

impl Defs {
    // The type at which the constant can be defined.
    fn accepted(&self, alloc: Global, name: &Name, body: &Term) -> Result<Ty, DefFault>
        ensures { MatchResult result (λ ty. defining self.now name.now body.now ≡ gives ty) (λ fault. FaultIs fault (defining self.now name.now body.now)) }
    {
        let signature = self.signature();
        if signature.const_type(name).is_some() {
            return Err(fault::name_taken(name));
        }
        let ty = typed_over(alloc, signature, body)?;
        closed_at(body, ty)
    }

    // The list with the constant in front.
    fn with_new_constant(
        &self,
        alloc: Global,
        name: &Name,
        ty: &Ty,
        body: &Term,
    ) -> Result<Definitions, AllocError>
        requires { IsNewConstant self.now name.now ty.now body.now }
        ensures { IfOk result (λ d. d ≡ new_constant name.now ty.now body.now ∷ self.now) }
    {
        let definition = definition::constant(name, ty, body)?;
        let signature = with_constant(alloc, self.signature(), name, ty)?;
        self.definitions().with(alloc, definition, signature)
    }

    // Puts the constant in front of the list, and gives its theorem.
    fn add(&mut self, alloc: Global, name: &Name, ty: &Ty, body: &Term) -> Result<Thm, AllocError>
        requires { IsNewConstant self.old name.now ty.now body.now }
        ensures list { IfOk result (λ _. self.new ≡ new_constant name.now ty.now body.now ∷ self.old) }
        ensures theorem { IfOk result (λ th. th ≡ plain self.new (equal ty.now (constant name.now ty.now) body.now)) }
        ensures err { OnErr result (self.new ≡ self.old) }
    {
        let list = self.with_new_constant(alloc, name, ty, body)?;
        let concl = defining_equation(alloc, name, ty, body)?;
        let theorem = Thm::plain(alloc, list.copy()?, concl);
        self.replace(list);
        Ok(theorem)
    }

    #[tactic(auto, using(crate::proofs::Defined::made_new))]
    fn make(&mut self, alloc: Global, name: &Name, body: &Term) -> Result<Thm, DefFault>
        ensures ok { IfOk result (Defines self.old self.new name.now body.now) }
        ensures refused { IfErr result (λ fault. FaultIs fault (defining self.old name.now body.now)) }
        ensures err { OnErr result (self.new ≡ self.old) }
    {
        let ty = self.accepted(alloc, name, body)?;
        Ok(self.add(alloc, name, &ty, body)?)
    }

    /// Defines a constant by a closed term, and gives the theorem that they are equal. The refusals are tried in the
    /// order of `DefFault`; after one, and after want of memory, all is as before.
    pub fn define(&mut self, alloc: Global, name: &Name, body: &Term) -> Result<Thm, DefFault>
        ensures ok { IfOk result (Defines self.old self.new name.now body.now) }
        ensures refused { IfErr result (λ fault. FaultIs fault (defining self.old name.now body.now)) }
        ensures err { OnErr result (self.new ≡ self.old) }

        // The list stays conservative, and what can be added to it so is refused for want of memory alone.
        ensures conservative { IsConservative self.new }
        ensures only { (s : Typ) → IsNewConstant self.old name.now s body.now → MadeUnlessMemory result }
    {
        let answer = self.make(alloc, name, body);
        let _ = self.level();
        answer
    }

    // The predicate and the inhabitant, where the type can be defined.
    fn accepted_type<'a>(
        &self,
        name: &Name,
        abs: &Name,
        rep: &Name,
        inhabited: &'a Thm,
    ) -> Result<(&'a Term, &'a Term), DefFault>
        ensures outcome { MatchResult result
            (λ p. defining_type self.now name.now abs.now rep.now inhabited.now ≡ gives (new_type name.now (distinct_after [] (type_names_in p.0.now)) p.0.now p.1.now abs.now rep.now))
            (λ fault. FaultIs fault (defining_type self.now name.now abs.now rep.now inhabited.now)) }
        ensures derived { IfOk result (λ _. IsTheorem inhabited.now) }
    {
        if let Some(taken) = first_taken(self.signature(), name, abs, rep) {
            return Err(fault::name_taken(taken));
        }
        let Some((predicate, inhabitant)) = inhabited_parts(inhabited) else {
            return Err(DefFault::NotInhabitedForm);
        };
        if let Some(variable) = first_free(predicate) {
            return Err(fault::not_closed(variable));
        }
        Ok((predicate, inhabitant))
    }

    // The list with the type in front.
    fn with_new_type(
        &self,
        alloc: Global,
        name: &Name,
        params: Items<Name>,
        predicate: &Term,
        inhabitant: &Term,
        abs: &Name,
        rep: &Name,
        made: &Described,
    ) -> Result<Definitions, AllocError>
        requires new { IsNewType self.now name.now params predicate.now inhabitant.now abs.now rep.now }
        requires to_new { made.now.to_new ≡ function_type (represented predicate.now) (applied_to name.now params) }
        requires to_old { made.now.to_old ≡ function_type (applied_to name.now params) (represented predicate.now) }
        ensures { IfOk result (λ d. d ≡ new_type name.now params predicate.now inhabitant.now abs.now rep.now ∷ self.now) }
    {
        let arity = arity(params.as_slice())?;
        let signature = with_type(alloc, self.signature(), name, arity, abs, rep, made)?;
        let definition = definition::new_type(name, params, predicate, inhabitant, abs, rep)?;
        self.definitions().with(alloc, definition, signature)
    }

    // Puts the type in front of the list, and gives its theorems.
    fn add_type(
        &mut self,
        alloc: Global,
        name: &Name,
        abs: &Name,
        rep: &Name,
        predicate: &Term,
        inhabitant: &Term,
    ) -> Result<(Thm, Thm), AllocError>
        requires { IsNewType self.old name.now (distinct_after [] (type_names_in predicate.now)) predicate.now inhabitant.now abs.now rep.now }
        ensures list { IfOk result (λ _. self.new ≡ new_type name.now (distinct_after [] (type_names_in predicate.now)) predicate.now inhabitant.now abs.now rep.now ∷ self.old) }
        ensures abs_rep { IfOk result (λ p. p.0 ≡ plain self.new (abs_rep name.now (distinct_after [] (type_names_in predicate.now)) predicate.now abs.now rep.now)) }
        ensures rep_abs { IfOk result (λ p. p.1 ≡ plain self.new (rep_abs name.now (distinct_after [] (type_names_in predicate.now)) predicate.now abs.now rep.now)) }
        ensures err { OnErr result (self.new ≡ self.old) }
    {
        let params = parameters(alloc, predicate)?;
        let made = describe(alloc, name, params.as_slice(), predicate, abs, rep)?;
        let list = self.with_new_type(alloc, name, params, predicate, inhabitant, abs, rep, &made)?;
        let theorems = type_theorems(alloc, &list, made)?;
        self.replace(list);
        Ok(theorems)
    }

    /// Defines a type by a theorem `P t` without hypotheses and promises, for a closed `P`, and gives the theorems
    /// `abs (rep a) = a` and `P r = (rep (abs r) = r)`. Its parameters are the type variables of `P` in the order of
    /// their first places. The refusals are tried in the order of `DefFault`; after one, and after want of memory, all
    /// is as before.
    pub fn define_type(
        &mut self,
        alloc: Global,
        name: &Name,
        abs: &Name,
        rep: &Name,
        inhabited: &Thm,
    ) -> Result<(Thm, Thm), DefFault>
        requires { Within inhabited.now.defs self.old }
        ensures ok { IfOk result (λ p. DefinesType self.old self.new name.now abs.now rep.now inhabited.now p.0 p.1) }
        ensures refused { IfErr result (λ fault. FaultIs fault (defining_type self.old name.now abs.now rep.now inhabited.now)) }
        ensures err { OnErr result (self.new ≡ self.old) }
    {
        let parts = self.accepted_type(name, abs, rep, inhabited)?;
        Ok(self.add_type(alloc, name, abs, rep, parts.0, parts.1)?)
    }
}
