//! The measures of a type, by those of its parts and by the sources.
ghost use Rattle.std.specs.Prelude.{◌≡◌, ◌<◌, ◌++◌, [], List, map, take, length, Some, None, IfOk, IsTrue, MatchOption};
ghost use Rattle.std.specs.Option.{IfSome};
ghost use Rattle.fp_term.specs.Names.{is_name};
ghost use Rattle.fp_term.specs.Types.{Typ, type_parts};
ghost use Rattle.fp_term.specs.Terms.{Tm, constant};
ghost use Rattle.fp_term.specs.Typing.{function_type};
ghost use Rattle.fp_conv.specs.Passes.{NormalBy};
ghost use Rattle.fp_shapes.specs.Tuples.{pair_type};
ghost use Rattle.fp_measure.specs.Sources.{AreMeasures, measures_of};
ghost use Rattle.fp_measure.specs.Generating.{pair_parts, two_types, projection, of_part, AreNormalForms, offered, JoinsParts, Generates};

use crate::source::MeasureSource;
use fp_normal::normal_form;
use fp_term::{Items, Name, Term, Ty, TyNode, Tys, TysNode, copy_all, function_of};
use std::alloc::{AllocError, Global};

// The parts of a pair type.
#[derive(Clone, Copy)]
struct Parts<'a> {
    left: &'a Ty,
    right: &'a Ty,
}

// The types of a list of just two.
fn two_types(tys: &Tys) -> Option<Parts<'_>>
    ensures { MatchOption result (two_types tys.now ≡ None) (λ p. two_types tys.now ≡ Some (p.left.now, p.right.now)) }
{
    let TysNode::More { first, rest } = tys.node() else {
        return None;
    };
    let TysNode::More {
        first: second,
        rest,
    } = rest.node()
    else {
        return None;
    };
    match rest.node() {
        TysNode::End => Some(Parts {
            left: first,
            right: second,
        }),
        TysNode::More { .. } => None,
    }
}

// The parts of a pair type.
fn pair_parts(ty: &Ty) -> Option<Parts<'_>>
    ensures { MatchOption result (pair_parts ty.now ≡ None) (λ p. pair_parts ty.now ≡ Some (p.left.now, p.right.now)) }
{
    match ty.node() {
        TyNode::Var(_) => None,
        TyNode::Con { name, args } => {
            if name.as_slice() == b"prod".as_slice() {
                two_types(args)
            } else {
                None
            }
        }
    }
}

// A constant that is a function from the one type to the other.
fn projection(alloc: Global, name: &[u8], from: &Ty, to: &Ty) -> Result<Term, AllocError>
    requires { IsTrue (is_name name.now) }
    ensures { IfOk result (λ t. t ≡ projection name.now from.now to.now) }
{
    let ty = function_of(alloc, from.copy()?, to.copy()?)?;
    Term::constant(alloc, Name::of(alloc, name)?, ty)
}

// A measure of a part as one of the pair.
fn of_part(alloc: Global, pair: &Ty, projection: &Term, measure: &Term) -> Result<Term, AllocError>
    ensures { IfOk result (λ t. t ≡ of_part pair.now projection.now measure.now) }
{
    let part = Term::app(alloc, projection.copy()?, Term::bound(alloc, 0)?)?;
    let body = Term::app(alloc, measure.copy()?, part)?;
    Term::abs(alloc, pair.copy()?, body)
}

// The measures of a part as ones of the pair, in normal form.
fn of_parts(
    alloc: Global,
    pair: &Ty,
    projection: &Term,
    measures: &[Term],
) -> Result<Items<Term>, AllocError>
    ensures { IfOk result (AreNormalForms (map (of_part pair.now projection.now) measures.now)) }
{
    let mut made = Items::new(alloc);
    for measure in measures {
        let whole = of_part(alloc, pair, projection, measure)?;
        made.push(normal_form(alloc, &whole)?)?;
    }
    Ok(made)
}

// What one source has for the type.
fn of_source(
    source: &Box<dyn MeasureSource + Send + Sync>,
    ty: &Ty,
) -> Result<Items<Term>, AllocError>
    ensures exact { IfOk result (λ found. found ≡ measures_of (entries source.now) ty.now) }
    ensures measures { IfOk result (AreMeasures ty.now) }
{
    source.measures(ty)
}

// What the sources have for the type itself.
#[tactic(auto, using(crate::proofs::Generated::append_measures))]
fn offered(
    alloc: Global,
    sources: &[Box<dyn MeasureSource + Send + Sync>],
    ty: &Ty,
) -> Result<Items<Term>, AllocError>
    ensures exact { IfOk result (λ all. all ≡ offered (map (λ s. entries s) sources.now) ty.now) }
    ensures measures { IfOk result (AreMeasures ty.now) }
{
    let mut all = Items::new(alloc);
    for source in sources {
        all = all.extended(of_source(source, ty)?)?;
    }
    Ok(all)
}

// The first terms, so many as the limit says.
fn first_of(alloc: Global, terms: &[Term], limit: u32) -> Result<Items<Term>, AllocError>
    ensures { IfOk result (λ first. first ≡ take limit terms.now) }
{
    let count = terms.len().min(limit as usize);
    copy_all(alloc, &terms[..count])
}

// The measures of both parts as ones of the pair, and what the sources have for it.
#[tactic(auto, unfolding(fp_term::specs::Names::is_name))]
fn of_both(
    alloc: Global,
    sources: &[Box<dyn MeasureSource + Send + Sync>],
    pair: &Ty,
    left: &Ty,
    lefts: &[Term],
    right: &Ty,
    rights: &[Term],
) -> Result<Items<Term>, AllocError>
    requires lefts { AreMeasures left.now lefts.now }
    requires rights { AreMeasures right.now rights.now }
    ensures joins { IfOk result (JoinsParts (map (λ s. entries s) sources.now) pair.now left.now right.now
        lefts.now rights.now) }
    ensures measures { IfOk result (AreMeasures pair.now) }
{
    let first = projection(alloc, b"fst", pair, left)?;
    let lefts = of_parts(alloc, pair, &first, lefts)?;
    let second = projection(alloc, b"snd", pair, right)?;
    let rights = of_parts(alloc, pair, &second, rights)?;
    let own = offered(alloc, sources, pair)?;
    lefts.extended(rights.extended(own)?)
}

/// The measures of the type: of a pair type those of its left part, then those of its right part, and then what the sources
/// have; of any other type what the sources have. Only the first ones are kept, so many as the limit says.
#[tactic(auto, using(crate::proofs::Generated::parts_smaller))]
pub fn generate(
    alloc: Global,
    sources: &[Box<dyn MeasureSource + Send + Sync>],
    ty: &Ty,
    limit: u32,
) -> Result<Items<Term>, AllocError>
    ensures exact { IfOk result (Generates (map (λ s. entries s) sources.now) limit ty.now) }
    ensures measures { IfOk result (AreMeasures ty.now) }
{
    let Some(parts) = pair_parts(ty) else {
        let own = offered(alloc, sources, ty)?;
        return first_of(alloc, own.as_slice(), limit);
    };
    let lefts = generate(alloc, sources, parts.left, limit)?;
    let rights = generate(alloc, sources, parts.right, limit)?;
    let all = of_both(
        alloc,
        sources,
        ty,
        parts.left,
        lefts.as_slice(),
        parts.right,
        rights.as_slice(),
    )?;
    first_of(alloc, all.as_slice(), limit)
}
