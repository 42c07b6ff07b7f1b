//! A stack.
ghost use Rattle.std.specs.Prelude.{◌≡◌, ◌<◌, ◌∷◌, [], length, IfOk, OnOk, OnErr, MatchOption, MatchBool};

use fp_term::Term;
use std::alloc::{AllocError, Global};
use std::marker::Model;

/// Values of which the last one put there is taken first; contracts see a list with that one first.
pub struct Stack<T> {
    items: Vec<T>,
}

impl<T: Drop> Drop for Stack<T> {
    fn drop(self) {
        let Stack { items } = self;
        drop(items);
    }
}

impl<T> Model for Stack<T> {
    ghost use Rattle.std.specs.Prelude.{List, reverse};

    ghost Value = { List T };

    ghost view = { λ s. reverse s.items.items };
}

impl<T: Drop> Stack<T> {
    /// Nothing.
    pub fn new(alloc: Global) -> Stack<T>
        ensures { result ≡ [] }
    {
        Stack {
            items: Vec::new(alloc),
        }
    }

    /// Puts a value on top.
    pub fn push(&mut self, item: T) -> Result<(), AllocError>
        ensures ok { OnOk result (self.new ≡ item ∷ self.old) }
        ensures err { OnErr result (self.new ≡ self.old) }
    {
        self.items.push(item)?;
        Ok(())
    }

    /// Takes the value on top, if there is one.
    pub fn pop(&mut self) -> Option<T>
        ensures { MatchOption result ((self.old ≡ []) × (self.new ≡ [])) (λ item. self.old ≡ item ∷ self.new) }
    {
        self.items.pop()
    }

    /// Is nothing there?
    pub fn is_empty(&self) -> bool
        ensures { MatchBool result (self.now ≡ []) (0 < length self.now) }
    {
        self.items.is_empty()
    }
}

/// A stack of copies of the terms, the first one on top.
pub(crate) fn stack_of(alloc: Global, terms: &[Term]) -> Result<Stack<Term>, AllocError>
    ensures { IfOk result (λ s. s ≡ terms.now) }
{
    let mut stack = Stack::new(alloc);
    let mut rest = terms;
    while let Some((last, before)) = rest.split_last() {
        stack.push(last.copy()?)?;
        rest = before;
    }
    Ok(stack)
}
