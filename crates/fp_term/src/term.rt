//! Terms without names of bound variables, shared in cells.
ghost use Rattle.std.specs.Prelude.{◌≡◌, ◌≤◌, ◌+◌, ◌-◌, ◌↔◌, ◌||◌, max, true, false, IsTrue, IfOk};
ghost use Rattle.fp_term.specs.Terms.{Tm, bound, free, constant, app, abs, term_eq, height_of, size_of, Counts, term_hash, loose_of, is_open, has_type_variables, Marked};
ghost use Rattle.fp_term.specs.TermView.{seen};

use crate::name::{Name, mixed_hash};
use crate::ty::Ty;
use std::alloc::{AllocError, Global};
use std::marker::Model;
use std::sync::Arc;

// What is known of a term without a walk.
#[derive(Clone, Copy)]
struct Marks {
    hash: u32,
    loose: u64,
    variables: bool,
    polymorphic: bool,
}

/// A term. A copy shares its parts.
#[cycle(term)]
pub struct Term {
    cell: Arc<Cell>,
}

impl Drop for Term {
    #[cycle(term_drop)]
    fn drop(self) {
        let Term { cell } = self;
        drop(cell);
    }
}

#[cycle(term)]
#[derive(Drop)]
struct Cell {
    height: u32,
    size: u32,
    marks: Marks,
    node: Node,
}

/// One level of a term: `Bound` counts the abstractions between it and its binder.
#[cycle(term)]
#[derive(Drop)]
pub enum Node {
    Bound(u32),
    Free { name: Name, ty: Ty },
    Const { name: Name, ty: Ty },
    App { fun: Term, arg: Term },
    Abs { ty: Ty, body: Term },
}

impl Model for Term {
    ghost use Rattle.fp_term.specs.Terms.{Tm, size_of, Counts, Marked};
    ghost use Rattle.fp_term.specs.Codes.{coded_term};

    ghost Value = { Tm };

    ghost coded = { coded_term };

    ghost use Rattle.fp_term.specs.TermView.{seen};

    ghost view = { λ t. seen t.cell.value.node };

    ghost invariant = { λ t. Counts t.cell.value.height t.cell.value.size (seen t.cell.value.node) × Marked t.cell.value.marks.hash t.cell.value.marks.loose t.cell.value.marks.variables t.cell.value.marks.polymorphic (seen t.cell.value.node) };

    ghost size = { size_of };

    ghost use Rattle.std.proofs.Common.{arith};

    ghost size_decreases = { λ a h. Prim.grind arith };
}

impl Term {
    pub fn copy(&self) -> Result<Term, AllocError>
        ensures { IfOk result (λ t. t ≡ self.now) }
    {
        Ok(Term {
            cell: Arc::try_clone(&self.cell)?,
        })
    }

    /// One level of the term.
    pub fn node(&self) -> &Node
        ensures { seen result.now ≡ self.now }
    {
        &self.cell.node
    }

    fn height(&self) -> u32
        ensures is { result ≡ height_of self.now }
        ensures low { result ≤ 4000 }
    {
        self.cell.height
    }

    fn size(&self) -> u32
        ensures is { result ≡ size_of self.now }
        ensures small { result ≤ 67108864 }
    {
        self.cell.size
    }

    fn hash(&self) -> u32
        ensures { result ≡ term_hash self.now }
    {
        self.cell.marks.hash
    }

    /// How many abstractions around the term bind each of its numbers.
    pub fn loose(&self) -> u64
        ensures { result ≡ loose_of self.now }
    {
        self.cell.marks.loose
    }

    /// Has the term a free variable?
    pub fn is_open(&self) -> bool
        ensures { result ≡ is_open self.now }
    {
        self.cell.marks.variables
    }

    /// Has the term a type variable?
    pub fn is_polymorphic(&self) -> bool
        ensures { result ≡ has_type_variables self.now }
    {
        self.cell.marks.polymorphic
    }

    fn make(
        alloc: Global,
        height: u32,
        size: u32,
        marks: Marks,
        node: Node,
    ) -> Result<Term, AllocError>
        requires counted { Counts height size (seen node) }
        requires marked { Marked marks.hash marks.loose marks.variables marks.polymorphic (seen node) }
        ensures { IfOk result (λ t. t ≡ seen node) }
    {
        Ok(Term {
            cell: Arc::new(
                alloc,
                Cell {
                    height,
                    size,
                    marks,
                    node,
                },
            )?,
        })
    }

    pub fn bound(alloc: Global, number: u32) -> Result<Term, AllocError>
        ensures { IfOk result (λ t. t ≡ bound number) }
    {
        let marks = Marks {
            hash: mixed_hash(5, number, 0),
            loose: u64::from(number) + 1,
            variables: false,
            polymorphic: false,
        };
        Term::make(alloc, 1, 1, marks, Node::Bound(number))
    }

    pub fn free(alloc: Global, name: Name, ty: Ty) -> Result<Term, AllocError>
        ensures { IfOk result (λ t. t ≡ free name ty) }
    {
        let marks = Marks {
            hash: mixed_hash(6, name.hash(), ty.hash()),
            loose: 0,
            variables: true,
            polymorphic: ty.is_polymorphic(),
        };
        Term::make(alloc, 1, 1, marks, Node::Free { name, ty })
    }

    pub fn constant(alloc: Global, name: Name, ty: Ty) -> Result<Term, AllocError>
        ensures { IfOk result (λ t. t ≡ constant name ty) }
    {
        let marks = Marks {
            hash: mixed_hash(7, name.hash(), ty.hash()),
            loose: 0,
            variables: false,
            polymorphic: ty.is_polymorphic(),
        };
        Term::make(alloc, 1, 1, marks, Node::Const { name, ty })
    }

    /// The application, if that isn't too large.
    pub fn app(alloc: Global, fun: Term, arg: Term) -> Result<Term, AllocError>
        ensures { IfOk result (λ t. t ≡ app fun arg) }
    {
        let height = fun.height().max(arg.height()) + 1;
        let size = fun.size() + arg.size() + 1;
        if height > 4000 || size > 67108864 {
            return Err(AllocError);
        }
        let marks = Marks {
            hash: mixed_hash(8, fun.hash(), arg.hash()),
            loose: fun.loose().max(arg.loose()),
            variables: fun.is_open() || arg.is_open(),
            polymorphic: fun.is_polymorphic() || arg.is_polymorphic(),
        };
        Term::make(alloc, height, size, marks, Node::App { fun, arg })
    }

    /// The abstraction, if that isn't too large.
    pub fn abs(alloc: Global, ty: Ty, body: Term) -> Result<Term, AllocError>
        ensures { IfOk result (λ t. t ≡ abs ty body) }
    {
        let height = body.height() + 1;
        let size = body.size() + 1;
        if height > 4000 || size > 67108864 {
            return Err(AllocError);
        }
        let marks = Marks {
            hash: mixed_hash(9, ty.hash(), body.hash()),
            loose: body.loose().saturating_sub(1),
            variables: body.is_open(),
            polymorphic: ty.is_polymorphic() || body.is_polymorphic(),
        };
        Term::make(alloc, height, size, marks, Node::Abs { ty, body })
    }
}

/// Are the terms equal?
pub fn same(a: &Term, b: &Term) -> bool
    ensures value { result ≡ term_eq a.now b.now }
    ensures equal { IsTrue result ↔ (a.now ≡ b.now) }
{
    are_equal(a, b)
}

// By their hashes first: terms with one hash mostly are equal, so the walk looks at no other.
#[tactic(auto, using(crate::proofs::Apart::terms_apart))]
fn are_equal(a: &Term, b: &Term) -> bool
    ensures { result ≡ term_eq a.now b.now }
{
    if a.hash() != b.hash() {
        return false;
    }
    are_same(a, b)
}

fn are_same(a: &Term, b: &Term) -> bool
    ensures { result ≡ term_eq a.now b.now }
{
    match a.node() {
        Node::Bound(n) => match b.node() {
            Node::Bound(m) => *n == *m,
            _ => false,
        },
        Node::Free { name: m, ty: s } => match b.node() {
            Node::Free { name: n, ty: t } => m.equals(n) && s.is_same(t),
            _ => false,
        },
        Node::Const { name: m, ty: s } => match b.node() {
            Node::Const { name: n, ty: t } => m.equals(n) && s.is_same(t),
            _ => false,
        },
        Node::App { fun: f, arg: x } => match b.node() {
            Node::App { fun: g, arg: y } => are_same(f, g) && are_same(x, y),
            _ => false,
        },
        Node::Abs { ty: s, body: x } => match b.node() {
            Node::Abs { ty: t, body: y } => s.is_same(t) && are_same(x, y),
            _ => false,
        },
    }
}

/// The nodes of a term, counted wherever they stand.
pub fn nodes(t: &Term) -> u64
    ensures is { result ≡ size_of t.now }
    ensures small { result ≤ 67108864 }
{
    u64::from(t.size())
}

/// The nodes on the longest way down into a term.
pub fn depth(t: &Term) -> u32
    ensures is { result ≡ height_of t.now }
    ensures low { result ≤ 4000 }
{
    t.height()
}
