//! What a reader of bytes knows between two of them.
ghost use Rattle.std.specs.Prelude.{◌≡◌, ◌∷◌, ◌++◌, [], ◌-◌, IfOk, length};
ghost use Rattle.std.specs.Option.{option_map};
ghost use Rattle.fp_full.specs.Tokens.{word};
ghost use Rattle.fp_full.specs.Machine.{ended_at, in_longer, next_phase};
ghost use Rattle.fp_full.specs.Views.{asked, parsed_of, phase_of, state_of};

use crate::lexicon;
use crate::nest::{Root, fresh, pushed};
use crate::parsed::{Kind, Parsed};
use crate::state::State;
use std::alloc::{AllocError, Global};

// Between two tokens, or in a word with its bytes so far.
pub(crate) enum Phase {
    Between(State),
    InWord { word: Vec<u8>, state: State },
}

impl Drop for Phase {
    fn drop(self) {
        match self {
            Phase::Between(_) => {}
            Phase::InWord { word: _, state: _ } => {}
        }
    }
}

// Where nothing is read yet.
pub(crate) fn start(alloc: Global, kind: Kind) -> Phase
    ensures { phase_of result ≡ Rattle.fp_full.specs.Machine.between (Rattle.fp_full.specs.Machine.start (asked kind)) }
{
    Phase::Between(match kind {
        Kind::Term => State::TermDue(fresh(alloc, Root::Alone)),
        Kind::Statement => State::StatementDue,
        Kind::File => State::EntryDue(Vec::new(alloc)),
    })
}

// In a word with one more byte, if a word that may come there begins so.
fn longer(word: Vec<u8>, byte: u8, state: State) -> Result<Option<Phase>, AllocError>
    ensures { IfOk result (λ next. option_map phase_of next ≡ in_longer (word.items ++ byte ∷ []) (state_of state)) }
{
    let word = pushed(word, byte)?;
    if lexicon::may_begin(&state, &word) {
        Ok(Some(Phase::InWord { word, state }))
    } else {
        Ok(None)
    }
}

// The phase after the byte at the place, where no word is open.
#[tactic(auto, unfolding(crate::specs::Machine::from_between))]
fn from_between(alloc: Global, state: State, byte: u8, at: u32) -> Result<Option<Phase>, AllocError>
    ensures { IfOk result (λ next. option_map phase_of next ≡ Rattle.fp_full.specs.Machine.from_between (state_of state) byte at) }
{
    if lexicon::is_space_byte(byte) {
        return Ok(Some(Phase::Between(state)));
    }
    if lexicon::is_word_byte(byte) {
        return longer(Vec::new(alloc), byte, state);
    }
    match lexicon::mark_of(byte) {
        Some(mark) => Ok(state.after_mark(alloc, mark, at)?.map(Phase::Between)),
        None => Ok(None),
    }
}

// The state after a word that ends at the place.
fn after_word_to(
    alloc: Global,
    text: &[u8],
    state: State,
    at: u32,
) -> Result<Option<State>, AllocError>
    ensures { IfOk result (λ next. option_map state_of next ≡ Rattle.fp_full.specs.Machine.step (state_of state) (word text.now) (at - length text.now)) }
{
    let first = (at as usize).saturating_sub(text.len()) as u32;
    state.after_word(alloc, text, first)
}

impl Phase {
    // The phase after the byte at the place.
    #[tactic(auto, unfolding(crate::specs::Machine::next_phase))]
    pub(crate) fn after(self, alloc: Global, byte: u8, at: u32) -> Result<Option<Phase>, AllocError>
        ensures { IfOk result (λ next. option_map phase_of next ≡ next_phase (phase_of self) byte at) }
    {
        match self {
            Phase::Between(state) => from_between(alloc, state, byte, at),
            Phase::InWord { word, state } => {
                if lexicon::is_word_byte(byte) {
                    return longer(word, byte, state);
                }
                match after_word_to(alloc, &word, state, at)? {
                    Some(next) => from_between(alloc, next, byte, at),
                    None => Ok(None),
                }
            }
        }
    }

    // What was read where the bytes end at the place.
    #[tactic(auto, unfolding(crate::specs::Machine::ended_at))]
    pub(crate) fn end(self, alloc: Global, at: u32) -> Result<Option<Parsed>, AllocError>
        ensures { IfOk result (λ parsed. option_map parsed_of parsed ≡ ended_at (phase_of self) at) }
    {
        match self {
            Phase::Between(state) => Ok(state.finish()),
            Phase::InWord { word, state } => match after_word_to(alloc, &word, state, at)? {
                Some(last) => Ok(last.finish()),
                None => Ok(None),
            },
        }
    }
}
