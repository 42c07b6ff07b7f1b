//! What is asked of a type and its constructors.
ghost use Rattle.std.specs.Prelude.{◌≡◌, ◌≤◌, ◌++◌, ◌∷◌, [], map, length, codes, IfOk, OnOk, IsTrue};
ghost use Rattle.fp_term.specs.Names.{numbered};
ghost use Rattle.fp_term.specs.Terms.{free};
ghost use Rattle.fp_conclude.specs.Logic.{equal};
ghost use Rattle.fp_constructors.specs.Needed.{numbered_from, xs_of, ys_of, value_at, is_some_value, exhaustion, equations_from, injection, difference};
ghost use Rattle.fp_constructors.specs.Shapes.{seen_shape};

use crate::shape::Shape;
use fp_conclude::{equation, negation, truth_type};
use fp_shapes::{at_variables, conjunctions, curried, disjunctions, for_somes, variable};
use fp_term::{Items, Name, Term, Ty, next, numbered};
use std::alloc::{AllocError, Global};

#[tactic(auto, unfolding(fp_term::specs::Names::is_name))]
fn x_name(alloc: Global) -> Result<Name, AllocError>
    ensures { IfOk result (λ n. n ≡ codes "x") }
{
    Name::of(alloc, b"x")
}

#[tactic(auto, unfolding(fp_term::specs::Names::is_name))]
fn y_name(alloc: Global) -> Result<Name, AllocError>
    ensures { IfOk result (λ n. n ≡ codes "y") }
{
    Name::of(alloc, b"y")
}

// Variables of the types, numbered from 1.
fn numbered_variables(
    alloc: Global,
    stem: &Name,
    tys: &[Ty],
) -> Result<Items<(Name, Ty)>, AllocError>
    requires { length stem.now ≤ 150 }
    ensures { IfOk result (λ vars. vars ≡ numbered_from 1 stem.now tys.now) }
{
    let mut vars = Items::new(alloc);
    let mut number = 1;
    for ty in tys {
        vars.push((numbered(alloc, stem, number)?, ty.copy()?))?;
        number = next(number)?;
    }
    Ok(vars)
}

fn xs_of(alloc: Global, shape: &Shape) -> Result<Items<(Name, Ty)>, AllocError>
    ensures { IfOk result (λ vars. vars ≡ xs_of (seen_shape shape.now)) }
{
    let stem = x_name(alloc)?;
    numbered_variables(alloc, &stem, shape.args.as_slice())
}

fn ys_of(alloc: Global, shape: &Shape) -> Result<Items<(Name, Ty)>, AllocError>
    ensures { IfOk result (λ vars. vars ≡ ys_of (seen_shape shape.now)) }
{
    let stem = y_name(alloc)?;
    numbered_variables(alloc, &stem, shape.args.as_slice())
}

// `C x1 .. xn`
fn value_at(
    alloc: Global,
    whole: &Ty,
    shape: &Shape,
    vars: &[(Name, Ty)],
) -> Result<Term, AllocError>
    ensures { IfOk result (λ t. t ≡ value_at whole.now (seen_shape shape.now) vars.now) }
{
    let ty = curried(alloc, vars, whole)?;
    let con = Term::constant(alloc, shape.con.copy()?, ty)?;
    at_variables(alloc, &con, vars)
}

// `?x1 .. xn. x = C x1 .. xn`
fn is_some_value(alloc: Global, whole: &Ty, shape: &Shape) -> Result<Term, AllocError>
    ensures { IfOk result (λ t. t ≡ is_some_value whole.now (seen_shape shape.now)) }
{
    let vars = xs_of(alloc, shape)?;
    let value = value_at(alloc, whole, shape, vars.as_slice())?;
    let x = variable(alloc, &x_name(alloc)?, whole)?;
    let same = equation(alloc, whole, &x, &value)?;
    for_somes(alloc, vars.as_slice(), &same)
}

/// Each value is one of a constructor.
pub fn exhaustion(alloc: Global, whole: &Ty, shapes: &[Shape]) -> Result<Term, AllocError>
    ensures { IfOk result (λ t. t ≡ exhaustion whole.now (map seen_shape shapes.now)) }
{
    let mut parts = Items::new(alloc);
    for shape in shapes {
        parts.push(is_some_value(alloc, whole, shape)?)?;
    }
    disjunctions(alloc, parts.as_slice())
}

// `x1 = y1`, for variables of that number
fn numbered_equation(
    alloc: Global,
    x: &Name,
    y: &Name,
    number: u32,
    ty: &Ty,
) -> Result<Term, AllocError>
    requires x_short { length x.now ≤ 150 }
    requires y_short { length y.now ≤ 150 }
    ensures { IfOk result (λ t. t ≡ equal ty.now (free (numbered x.now number) ty.now) (free (numbered y.now number) ty.now)) }
{
    let left = variable(alloc, &numbered(alloc, x, number)?, ty)?;
    let right = variable(alloc, &numbered(alloc, y, number)?, ty)?;
    equation(alloc, ty, &left, &right)
}

// `x1 = y1`, .., `xn = yn`
fn equations(alloc: Global, tys: &[Ty]) -> Result<Items<Term>, AllocError>
    ensures { IfOk result (λ ts. ts ≡ equations_from 1 tys.now) }
{
    let x = x_name(alloc)?;
    let y = y_name(alloc)?;
    let mut equations = Items::new(alloc);
    let mut number = 1;
    for ty in tys {
        equations.push(numbered_equation(alloc, &x, &y, number, ty)?)?;
        number = next(number)?;
    }
    Ok(equations)
}

// `C x1 .. xn`
fn value_at_xs(alloc: Global, whole: &Ty, shape: &Shape) -> Result<Term, AllocError>
    ensures { IfOk result (λ t. t ≡ value_at whole.now (seen_shape shape.now) (xs_of (seen_shape shape.now))) }
{
    let vars = xs_of(alloc, shape)?;
    value_at(alloc, whole, shape, vars.as_slice())
}

fn value_at_ys(alloc: Global, whole: &Ty, shape: &Shape) -> Result<Term, AllocError>
    ensures { IfOk result (λ t. t ≡ value_at whole.now (seen_shape shape.now) (ys_of (seen_shape shape.now))) }
{
    let vars = ys_of(alloc, shape)?;
    value_at(alloc, whole, shape, vars.as_slice())
}

// `C x1 .. xn = D y1 .. ym`
fn values_equal(alloc: Global, whole: &Ty, shape: &Shape, other: &Shape) -> Result<Term, AllocError>
    ensures { IfOk result (λ t. t ≡ equal whole.now (value_at whole.now (seen_shape shape.now) (xs_of (seen_shape shape.now)))
        (value_at whole.now (seen_shape other.now) (ys_of (seen_shape other.now)))) }
{
    let left = value_at_xs(alloc, whole, shape)?;
    let right = value_at_ys(alloc, whole, other)?;
    equation(alloc, whole, &left, &right)
}

/// `(C x1 .. xn = C y1 .. yn) = (x1 = y1 /\ .. /\ xn = yn)`
pub fn injection(alloc: Global, whole: &Ty, shape: &Shape) -> Result<Term, AllocError>
    ensures { IfOk result (λ t. t ≡ injection whole.now (seen_shape shape.now)) }
{
    let same = values_equal(alloc, whole, shape, shape)?;
    let equations = equations(alloc, shape.args.as_slice())?;
    let all = conjunctions(alloc, equations.as_slice())?;
    equation(alloc, &truth_type(alloc)?, &same, &all)
}

/// `~ C x1 .. = D y1 ..`
pub fn difference(
    alloc: Global,
    whole: &Ty,
    shape: &Shape,
    other: &Shape,
) -> Result<Term, AllocError>
    ensures { IfOk result (λ t. t ≡ difference whole.now (seen_shape shape.now) (seen_shape other.now)) }
{
    negation(alloc, &values_equal(alloc, whole, shape, other)?)
}
