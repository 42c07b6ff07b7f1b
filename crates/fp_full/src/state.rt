//! What is due at each place between two tokens.
ghost use Rattle.std.specs.Prelude.{◌≡◌, [], ◌&&◌, not, IfOk, cond, codes, Some, None};
ghost use Rattle.std.specs.Option.{option_map};
ghost use Rattle.std.specs.Str.{bytes_eq};
ghost use Rattle.fp_term.specs.Names.{is_name};
ghost use Rattle.fp_term.specs.Terms.{bound};
ghost use Rattle.fp_full.specs.Tokens.{left, right, equals, brace_left, brace_right, word};
ghost use Rattle.fp_full.specs.Grammar.{is_reserved};
ghost use Rattle.fp_full.specs.Machine.{form_byte, form_word, is_numeral, read_on, free_type, constant_type, close_due, equals_due, type_due, entry_name_due, hypotheses_due, hypothesis_due};
ghost use Rattle.fp_full.specs.Views.{state_of, nest_of, use_of, entries_of, parsed_of, token_of};

use crate::lexicon::{self, Mark};
use crate::nest::{Frame, Nest, Root, after_term, deeper, fresh, pushed};
use crate::parsed::{Definition, Parsed};
use crate::typing::{Partial, Use, after_type_name, after_variable, close_type};
use fp_term::{Name, Term};
use std::alloc::{AllocError, Global};

// What is due next. Of open types the innermost is last.
pub(crate) enum State {
    TermDue(Nest),
    FormDue(Nest),
    NumberDue(Nest),
    FreeNameDue(Nest),
    ConstantNameDue(Nest),
    TypeDue(Use, Vec<Partial>, Nest),
    TypeNameDue(Use, Vec<Partial>, Nest),
    CloseDue(Term, Nest),
    TermRead(Term),
    StatementDue,
    SDue,
    HypothesesDue,
    HDue,
    HypothesisDue(Vec<Term>),
    EndDue(Vec<Term>, Term),
    StatementRead(Vec<Term>, Term),
    EntryDue(Vec<Definition>),
    EntryNameDue(Vec<Definition>, u32),
    EqualsDue(Vec<Definition>, u32, Name),
    BraceDue(Vec<Definition>, u32, Name),
    BraceCloseDue(Vec<Definition>, Definition),
}

impl Drop for State {
    fn drop(self) {
        match self {
            State::TermDue(_) => {}
            State::FormDue(_) => {}
            State::NumberDue(_) => {}
            State::FreeNameDue(_) => {}
            State::ConstantNameDue(_) => {}
            State::TypeDue(_, _, _) => {}
            State::TypeNameDue(_, _, _) => {}
            State::CloseDue(_, _) => {}
            State::TermRead(_) => {}
            State::StatementDue => {}
            State::SDue => {}
            State::HypothesesDue => {}
            State::HDue => {}
            State::HypothesisDue(_) => {}
            State::EndDue(_, _) => {}
            State::StatementRead(_, _) => {}
            State::EntryDue(_) => {}
            State::EntryNameDue(_, _) => {}
            State::EqualsDue(_, _, _) => {}
            State::BraceDue(_, _, _) => {}
            State::BraceCloseDue(_, _) => {}
        }
    }
}
// After the byte of a form.
fn after_form_byte(alloc: Global, byte: u8, nest: Nest) -> Result<Option<State>, AllocError>
    ensures { IfOk result (λ state. option_map state_of state ≡ form_byte byte (nest_of nest)) }
{
    match byte {
        b'b' => Ok(Some(State::NumberDue(nest))),
        b'v' => Ok(Some(State::FreeNameDue(nest))),
        b'c' => Ok(Some(State::ConstantNameDue(nest))),
        b'a' => Ok(Some(State::TermDue(deeper(nest, Frame::Function)?))),
        b'l' => Ok(Some(type_of_name(alloc, Use::Bound, nest))),
        _ => Ok(None),
    }
}

// After the word of a form.
fn after_form(alloc: Global, form: &[u8], nest: Nest) -> Result<Option<State>, AllocError>
    ensures { IfOk result (λ state. option_map state_of state ≡ form_word form.now (nest_of nest)) }
{
    match form {
        [byte] => after_form_byte(alloc, *byte, nest),
        _ => Ok(None),
    }
}

fn after_number(alloc: Global, digits: &[u8], nest: Nest) -> Result<Option<State>, AllocError>
    ensures { IfOk result (λ state. option_map state_of state ≡ cond (is_numeral digits.now) (Some (close_due (bound (read_on 0 digits.now)) (nest_of nest))) None) }
{
    match lexicon::number_of(digits) {
        Some(number) => Ok(Some(State::CloseDue(Term::bound(alloc, number)?, nest))),
        None => Ok(None),
    }
}

// The type that follows a name.
fn type_of_name(alloc: Global, role: Use, nest: Nest) -> State
    ensures { state_of result ≡ type_due (use_of role) [] (nest_of nest) }
{
    State::TypeDue(role, Vec::new(alloc), nest)
}

// After a free variable's name.
fn after_free_name(alloc: Global, text: &[u8], nest: Nest) -> Result<Option<State>, AllocError>
    ensures { IfOk result (λ state. option_map state_of state ≡ cond (is_name text.now) (Some (type_due (free_type text.now) [] (nest_of nest))) None) }
{
    match Name::new(alloc, text)? {
        Some(name) => Ok(Some(type_of_name(alloc, Use::Free(name), nest))),
        None => Ok(None),
    }
}

// After a constant's name.
fn after_constant_name(alloc: Global, text: &[u8], nest: Nest) -> Result<Option<State>, AllocError>
    ensures { IfOk result (λ state. option_map state_of state ≡ cond (is_name text.now) (Some (type_due (constant_type text.now) [] (nest_of nest))) None) }
{
    match Name::new(alloc, text)? {
        Some(name) => Ok(Some(type_of_name(alloc, Use::Constant(name), nest))),
        None => Ok(None),
    }
}

// After the word at a statement's front.
fn after_s(text: &[u8]) -> Option<State>
    ensures { option_map state_of result ≡ cond (bytes_eq text.now (codes "s")) (Some hypotheses_due) None }
{
    if text == b"s".as_slice() {
        Some(State::HypothesesDue)
    } else {
        None
    }
}

// After the word at the front of the hypotheses.
fn after_h(alloc: Global, text: &[u8]) -> Option<State>
    ensures { option_map state_of result ≡ cond (bytes_eq text.now (codes "h")) (Some (hypothesis_due [])) None }
{
    if text == b"h".as_slice() {
        Some(State::HypothesisDue(Vec::new(alloc)))
    } else {
        None
    }
}

fn after_entry_name(
    alloc: Global,
    text: &[u8],
    earlier: Vec<Definition>,
    first: u32,
) -> Result<Option<State>, AllocError>
    ensures { IfOk result (λ state. option_map state_of state ≡ cond (is_name text.now && not (is_reserved text.now)) (Some (equals_due (entries_of earlier.items) first text.now)) None) }
{
    if lexicon::is_keyword(text) {
        return Ok(None);
    }
    match Name::new(alloc, text)? {
        Some(name) => Ok(Some(State::EqualsDue(earlier, first, name))),
        None => Ok(None),
    }
}

// After the word that begins at the place, where a definition may.
fn after_definition(text: &[u8], earlier: Vec<Definition>, at: u32) -> Option<State>
    ensures { option_map state_of result ≡ cond (bytes_eq text.now (codes "definition")) (Some (entry_name_due (entries_of earlier.items) at)) None }
{
    if text == b"definition".as_slice() {
        Some(State::EntryNameDue(earlier, at))
    } else {
        None
    }
}

impl State {
    // The state after a word that begins at the place.
    #[tactic(auto, unfolding(crate::specs::Machine::step))]
    pub(crate) fn after_word(
        self,
        alloc: Global,
        text: &[u8],
        at: u32,
    ) -> Result<Option<State>, AllocError>
        ensures { IfOk result (λ next. option_map state_of next ≡ Rattle.fp_full.specs.Machine.step (state_of self) (word text.now) at) }
    {
        match self {
            State::FormDue(nest) => after_form(alloc, text, nest),
            State::NumberDue(nest) => after_number(alloc, text, nest),
            State::FreeNameDue(nest) => after_free_name(alloc, text, nest),
            State::ConstantNameDue(nest) => after_constant_name(alloc, text, nest),
            State::TypeDue(role, partials, nest) => after_variable(
                alloc, text, role, partials, nest,
            ),
            State::TypeNameDue(role, partials, nest) => {
                after_type_name(alloc, text, role, partials, nest)
            }
            State::SDue => Ok(after_s(text)),
            State::HDue => Ok(after_h(alloc, text)),
            State::EntryDue(earlier) => Ok(after_definition(text, earlier, at)),
            State::EntryNameDue(earlier, first) => after_entry_name(alloc, text, earlier, first),
            _ => Ok(None),
        }
    }

    // After `(`.
    #[tactic(auto, unfolding(crate::specs::Machine::step))]
    fn after_left(self, alloc: Global, at: u32) -> Option<State>
        ensures { option_map state_of result ≡ Rattle.fp_full.specs.Machine.step (state_of self) left at }
    {
        match self {
            State::TermDue(nest) => Some(State::FormDue(nest)),
            State::TypeDue(role, partials, nest) => Some(State::TypeNameDue(role, partials, nest)),
            State::StatementDue => Some(State::SDue),
            State::HypothesesDue => Some(State::HDue),
            State::HypothesisDue(hyps) => Some(State::FormDue(fresh(
                alloc,
                Root::Hypothesis(hyps),
            ))),
            _ => None,
        }
    }

    // After `)`.
    #[tactic(auto, unfolding(crate::specs::Machine::step))]
    fn after_right(self, alloc: Global, at: u32) -> Result<Option<State>, AllocError>
        ensures { IfOk result (λ next. option_map state_of next ≡ Rattle.fp_full.specs.Machine.step (state_of self) right at) }
    {
        match self {
            State::TypeDue(role, partials, nest) => close_type(alloc, role, partials, nest),
            State::CloseDue(term, nest) => Ok(Some(after_term(alloc, term, nest)?)),
            State::HypothesisDue(hyps) => {
                Ok(Some(State::TermDue(fresh(alloc, Root::Conclusion(hyps)))))
            }
            State::EndDue(hyps, term) => Ok(Some(State::StatementRead(hyps, term))),
            _ => Ok(None),
        }
    }

    // After `=`.
    #[tactic(auto, unfolding(crate::specs::Machine::step))]
    fn after_equals(self, at: u32) -> Option<State>
        ensures { option_map state_of result ≡ Rattle.fp_full.specs.Machine.step (state_of self) equals at }
    {
        match self {
            State::EqualsDue(earlier, first, name) => Some(State::BraceDue(earlier, first, name)),
            _ => None,
        }
    }

    // After `{`.
    #[tactic(auto, unfolding(crate::specs::Machine::step))]
    fn after_brace_left(self, alloc: Global, brace: u32) -> Option<State>
        ensures { option_map state_of result ≡ Rattle.fp_full.specs.Machine.step (state_of self) brace_left brace }
    {
        match self {
            State::BraceDue(earlier, at, name) => Some(State::TermDue(fresh(
                alloc,
                Root::Body {
                    earlier,
                    at,
                    name,
                    brace,
                },
            ))),
            _ => None,
        }
    }

    // After `}`.
    #[tactic(auto, unfolding(crate::specs::Machine::step))]
    fn after_brace_right(self, at: u32) -> Result<Option<State>, AllocError>
        ensures { IfOk result (λ next. option_map state_of next ≡ Rattle.fp_full.specs.Machine.step (state_of self) brace_right at) }
    {
        match self {
            State::BraceCloseDue(earlier, definition) => {
                Ok(Some(State::EntryDue(pushed(earlier, definition)?)))
            }
            _ => Ok(None),
        }
    }

    // The state after a mark that stands at the place.
    pub(crate) fn after_mark(
        self,
        alloc: Global,
        mark: Mark,
        at: u32,
    ) -> Result<Option<State>, AllocError>
        ensures { IfOk result (λ next. option_map state_of next ≡ Rattle.fp_full.specs.Machine.step (state_of self) (token_of mark) at) }
    {
        match mark {
            Mark::Left => Ok(self.after_left(alloc, at)),
            Mark::Right => self.after_right(alloc, at),
            Mark::Equals => Ok(self.after_equals(at)),
            Mark::BraceLeft => Ok(self.after_brace_left(alloc, at)),
            Mark::BraceRight => self.after_brace_right(at),
        }
    }

    // What was read, where the text may end.
    #[tactic(auto, unfolding(crate::specs::Machine::finish))]
    pub(crate) fn finish(self) -> Option<Parsed>
        ensures { option_map parsed_of result ≡ Rattle.fp_full.specs.Machine.finish (state_of self) }
    {
        match self {
            State::TermRead(term) => Some(Parsed::Term(term)),
            State::StatementRead(hyps, concl) => Some(Parsed::Statement { hyps, concl }),
            State::EntryDue(definitions) => Some(Parsed::Definitions(definitions)),
            _ => None,
        }
    }
}
