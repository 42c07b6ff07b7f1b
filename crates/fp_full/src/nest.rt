//! Terms whose parts are read.
//!
//! An enum here drops by an `impl` of its own, so that a function that drops one has a call there and not all its cases.
ghost use Rattle.std.specs.Prelude.{◌≡◌, ◌∷◌, ◌++◌, [], IfOk};
ghost use Rattle.fp_full.specs.Machine.{after_whole};
ghost use Rattle.fp_full.specs.Views.{state_of, nest_of, root_of, frame_of, frames_of};

use crate::parsed::Definition;
use crate::state::State;
use fp_term::{Name, Term, Ty};
use std::alloc::{AllocError, Global};

// What a whole term is for.
pub(crate) enum Root {
    Alone,
    Hypothesis(Vec<Term>),
    Conclusion(Vec<Term>),
    Body {
        earlier: Vec<Definition>,
        at: u32,
        name: Name,
        brace: u32,
    },
}

impl Drop for Root {
    fn drop(self) {
        match self {
            Root::Alone => {}
            Root::Hypothesis(_) => {}
            Root::Conclusion(_) => {}
            Root::Body {
                earlier: _,
                at: _,
                name: _,
                brace: _,
            } => {}
        }
    }
}

// An open form that waits for a term.
#[derive(Drop)]
pub(crate) enum Frame {
    Function,
    Argument(Term),
    Body(Ty),
}

// What a whole term is for, and the open forms in it, the innermost last.
#[derive(Drop)]
pub(crate) struct Nest {
    pub(crate) root: Root,
    pub(crate) frames: Vec<Frame>,
}

// The values with one more.
pub(crate) fn pushed<T: Drop>(items: Vec<T>, item: T) -> Result<Vec<T>, AllocError>
    ensures { IfOk result (λ more. more.items ≡ items.items ++ item ∷ []) }
{
    let mut items = items;
    items.push(item)?;
    Ok(items)
}

// Where no form is open.
pub(crate) fn fresh(alloc: Global, root: Root) -> Nest
    ensures { nest_of result ≡ record { root = root_of root; frames = [] } }
{
    Nest {
        root,
        frames: Vec::new(alloc),
    }
}

// With one more form open.
pub(crate) fn deeper(nest: Nest, frame: Frame) -> Result<Nest, AllocError>
    ensures { IfOk result (λ inner. nest_of inner ≡ record { root = root_of nest.root; frames = frame_of frame ∷ frames_of nest.frames.items }) }
{
    let Nest { root, frames } = nest;
    Ok(Nest {
        root,
        frames: pushed(frames, frame)?,
    })
}

impl Root {
    // After the whole term.
    fn after(self, term: Term) -> Result<State, AllocError>
        ensures { IfOk result (λ state. state_of state ≡ after_whole term (root_of self)) }
    {
        match self {
            Root::Alone => Ok(State::TermRead(term)),
            Root::Hypothesis(hyps) => Ok(State::HypothesisDue(pushed(hyps, term)?)),
            Root::Conclusion(hyps) => Ok(State::EndDue(hyps, term)),
            Root::Body {
                earlier,
                at,
                name,
                brace,
            } => Ok(State::BraceCloseDue(
                earlier,
                Definition {
                    at,
                    brace,
                    name,
                    term,
                },
            )),
        }
    }
}

// After a term: it is a part of the innermost open form, or whole.
pub(crate) fn after_term(alloc: Global, term: Term, nest: Nest) -> Result<State, AllocError>
    ensures { IfOk result (λ state. state_of state ≡ Rattle.fp_full.specs.Machine.after_term term (nest_of nest)) }
{
    let Nest { root, mut frames } = nest;
    match frames.pop() {
        None => root.after(term),
        Some(Frame::Function) => {
            let frames = pushed(frames, Frame::Argument(term))?;
            Ok(State::TermDue(Nest { root, frames }))
        }
        Some(Frame::Argument(fun)) => {
            let term = Term::app(alloc, fun, term)?;
            Ok(State::CloseDue(term, Nest { root, frames }))
        }
        Some(Frame::Body(ty)) => {
            let term = Term::abs(alloc, ty, term)?;
            Ok(State::CloseDue(term, Nest { root, frames }))
        }
    }
}
