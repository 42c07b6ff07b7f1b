//! The text of orders.
ghost use Rattle.std.specs.Prelude.{◌≡◌, ◌++◌, OnOk};
ghost use Rattle.fp_print.specs.Numbers.{AllHaveOnly};
ghost use Rattle.fp_report.specs.Orders.{after_each, separated, set_text, sets_after, sets_text, part_text, parts_after, order_text};
ghost use Rattle.fp_outcome.specs.Shown.{ListsHaveOnly, IsShownPart, AreShownParts};

use crate::item::push_term;
use fp_outcome::OrderPart;
use fp_term::{Items, Term};
use std::alloc::AllocError;

// Puts each term behind the separator at the end.
fn push_after(
    text: &mut Vec<u8>,
    full: bool,
    separator: &[u8],
    terms: &[Term],
) -> Result<(), AllocError>
    requires { AllHaveOnly 0 terms.now }
    ensures { OnOk result (text.new.items ≡ text.old.items ++ after_each full separator.now terms.now) }
{
    for term in terms {
        text.extend_from_slice(separator)?;
        push_term(text, full, term)?;
    }
    Ok(())
}

// Puts the terms with the separator between them at the end.
fn push_separated(
    text: &mut Vec<u8>,
    full: bool,
    separator: &[u8],
    terms: &[Term],
) -> Result<(), AllocError>
    requires { AllHaveOnly 0 terms.now }
    ensures { OnOk result (text.new.items ≡ text.old.items ++ separated full separator.now terms.now) }
{
    match terms {
        [] => Ok(()),
        [first, rest @ ..] => {
            push_term(text, full, first)?;
            push_after(text, full, separator, rest)
        }
    }
}

// Puts a set at the end.
fn push_set(text: &mut Vec<u8>, full: bool, set: &Items<Term>) -> Result<(), AllocError>
    requires { AllHaveOnly 0 set.now }
    ensures { OnOk result (text.new.items ≡ text.old.items ++ set_text full set.now) }
{
    text.extend_from_slice(b"{")?;
    push_separated(text, full, b", ", set.as_slice())?;
    text.extend_from_slice(b"}")
}

// Puts each set behind the separator at the end.
fn push_sets_after(text: &mut Vec<u8>, full: bool, sets: &[Items<Term>]) -> Result<(), AllocError>
    requires { ListsHaveOnly sets.now }
    ensures { OnOk result (text.new.items ≡ text.old.items ++ sets_after full sets.now) }
{
    for set in sets {
        text.extend_from_slice(b" | ")?;
        push_set(text, full, set)?;
    }
    Ok(())
}

// Puts the word of a kind and the sets at the end.
fn push_sets(
    text: &mut Vec<u8>,
    full: bool,
    word: &[u8],
    sets: &[Items<Term>],
) -> Result<(), AllocError>
    requires { ListsHaveOnly sets.now }
    ensures { OnOk result (text.new.items ≡ text.old.items ++ (word.now ++ sets_text full sets.now)) }
{
    text.extend_from_slice(word)?;
    match sets {
        [] => Ok(()),
        [first, rest @ ..] => {
            push_set(text, full, first)?;
            push_sets_after(text, full, rest)
        }
    }
}

// Puts a part at the end.
fn push_part(text: &mut Vec<u8>, full: bool, part: &OrderPart) -> Result<(), AllocError>
    requires { IsShownPart part.now }
    ensures { OnOk result (text.new.items ≡ text.old.items ++ part_text full part.now) }
{
    match part {
        OrderPart::Column(measures) => push_separated(text, full, b" | ", measures.as_slice()),
        OrderPart::Max(sets) => push_sets(text, full, b"max ", sets.as_slice()),
        OrderPart::Min(sets) => push_sets(text, full, b"min ", sets.as_slice()),
    }
}

// Puts each part behind a comma at the end.
fn push_parts_after(text: &mut Vec<u8>, full: bool, parts: &[OrderPart]) -> Result<(), AllocError>
    requires { AreShownParts parts.now }
    ensures { OnOk result (text.new.items ≡ text.old.items ++ parts_after full parts.now) }
{
    for part in parts {
        text.extend_from_slice(b", ")?;
        push_part(text, full, part)?;
    }
    Ok(())
}

/// Puts an order at the end.
pub(crate) fn push_order(
    text: &mut Vec<u8>,
    full: bool,
    parts: &[OrderPart],
) -> Result<(), AllocError>
    requires { AreShownParts parts.now }
    ensures { OnOk result (text.new.items ≡ text.old.items ++ order_text full parts.now) }
{
    match parts {
        [] => text.extend_from_slice(b"none"),
        [first, rest @ ..] => {
            push_part(text, full, first)?;
            push_parts_after(text, full, rest)
        }
    }
}
