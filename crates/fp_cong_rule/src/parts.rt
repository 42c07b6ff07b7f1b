//! Formulas with their premises and quantifiers taken off.
ghost use Rattle.std.specs.Prelude.{◌≡◌, ◌++◌, IfOk, OnOk};
ghost use Rattle.std.specs.Prelude.{map};
ghost use Rattle.fp_cong_rule.specs.Parts.{premises, consequence, domains, within, parts_of};

use fp_conclude::{connective, quantifier};
use fp_term::{Items, Node, Term, Ty, same};
use std::alloc::{AllocError, Global};

/// A premise `!v1 .. vk. G1 --> .. --> Gr --> q`, where `q` is no implication, taken apart.
#[derive(Drop)]
pub(crate) struct Premise {
    /// The types of `v1 .. vk`.
    pub vars: Items<Ty>,
    /// `G1 .. Gr`, in which the variables are loose numbers.
    pub guards: Items<Term>,
    /// `q`, likewise.
    pub rest: Term,
}

/// Puts the premises of the implications at the end of the list, and gives what is left.
#[tactic(auto, unfolding(fp_term::specs::Names::is_name))]
pub(crate) fn take_premises<'a>(
    alloc: Global,
    onto: &mut Items<Term>,
    term: &'a Term,
) -> Result<&'a Term, AllocError>
    ensures premises { OnOk result (onto.new ≡ onto.old ++ premises term.now) }
    ensures rest { IfOk result (λ t. t.now ≡ consequence term.now) }
{
    let Node::App { fun, arg: right } = term.node() else {
        return Ok(term);
    };
    let Node::App {
        fun: head,
        arg: left,
    } = fun.node()
    else {
        return Ok(term);
    };
    let imp = connective(alloc, b"imp")?;
    if !same(head, &imp) {
        return Ok(term);
    }
    onto.push(left.copy()?)?;
    take_premises(alloc, onto, right)
}

// Puts the types of the quantified variables at the end of the list, and gives what is left.
#[tactic(auto, unfolding(fp_term::specs::Names::is_name))]
fn take_domains<'a>(
    alloc: Global,
    tys: &mut Items<Ty>,
    term: &'a Term,
) -> Result<&'a Term, AllocError>
    ensures domains { OnOk result (tys.new ≡ tys.old ++ domains term.now) }
    ensures rest { IfOk result (λ t. t.now ≡ within term.now) }
{
    let Node::App { fun, arg } = term.node() else {
        return Ok(term);
    };
    let Node::Abs { ty, body } = arg.node() else {
        return Ok(term);
    };
    let all = quantifier(alloc, b"all", ty)?;
    if !same(fun, &all) {
        return Ok(term);
    }
    tys.push(ty.copy()?)?;
    take_domains(alloc, tys, body)
}

fn premise_parts(alloc: Global, term: &Term) -> Result<Premise, AllocError>
    ensures { IfOk result (λ p. p ≡ parts_of term.now) }
{
    let mut vars = Items::new(alloc);
    let body = take_domains(alloc, &mut vars, term)?;
    let mut guards = Items::new(alloc);
    let rest = take_premises(alloc, &mut guards, body)?.copy()?;
    Ok(Premise { vars, guards, rest })
}

/// The premises taken apart.
pub(crate) fn all_parts(alloc: Global, terms: &[Term]) -> Result<Items<Premise>, AllocError>
    ensures { IfOk result (λ ps. ps ≡ map parts_of terms.now) }
{
    let mut premises = Items::new(alloc);
    for term in terms {
        premises.push(premise_parts(alloc, term)?)?;
    }
    Ok(premises)
}
