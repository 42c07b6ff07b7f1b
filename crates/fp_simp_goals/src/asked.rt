//! A line `rule TERM`, `guard TERM` or `goal FUEL ROOM TERM`, with terms in the full form. `rule` alone begins anew.

use crate::answer::answer;
use fp_full::read_full_term;
use fp_term::{Items, Term, copy_all};
use std::alloc::{AllocError, Global};

/// The theorems that rules are read from, and the guards of the next goal.
#[derive(Drop)]
pub struct Asked {
    pub theorems: Items<Term>,
    pub guards: Items<Term>,
}

impl Asked {
    /// Nothing yet.
    pub fn new(alloc: Global) -> Asked {
        Asked {
            theorems: Items::new(alloc),
            guards: Items::new(alloc),
        }
    }
}

fn term_of(alloc: Global, text: &str) -> Result<Option<Term>, AllocError> {
    let bytes = text.as_bytes();
    if bytes.len() > 100000000 {
        return Ok(None);
    }
    match read_full_term(alloc, bytes) {
        Ok(term) => Ok(Some(term)),
        Err(_fault) => Ok(None),
    }
}

// The number before the first space, and what is behind it.
fn number_first(text: &str) -> Option<(u32, &str)> {
    let (number, rest) = text.split_once(' ')?;
    match number.parse::<u32>() {
        Ok(number) => Some((number, rest)),
        Err(_) => None,
    }
}

fn add(alloc: Global, terms: &mut Items<Term>, text: &str) -> Result<(), AllocError> {
    match term_of(alloc, text)? {
        Some(term) => terms.push(term),
        None => Ok(()),
    }
}

// What the goal becomes under the guards, which are spent.
fn goal(alloc: Global, asked: &mut Asked, text: &str) -> Result<Option<String>, AllocError> {
    let guards = copy_all(alloc, asked.guards.as_slice())?;
    asked.guards = Items::new(alloc);
    let Some((fuel, rest)) = number_first(text) else {
        return Ok(None);
    };
    let Some((room, rest)) = number_first(rest) else {
        return Ok(None);
    };
    match term_of(alloc, rest)? {
        Some(term) => {
            let text = answer(
                alloc,
                asked.theorems.as_slice(),
                guards.as_slice(),
                fuel,
                room,
                &term,
            )?;
            Ok(Some(text))
        }
        None => Ok(None),
    }
}

/// Takes the line, and gives the answer where it is a goal.
pub fn taken(alloc: Global, asked: &mut Asked, line: &str) -> Result<Option<String>, AllocError> {
    if line == "rule" {
        *asked = Asked::new(alloc);
        return Ok(None);
    }
    let Some((word, rest)) = line.split_once(' ') else {
        return Ok(None);
    };
    match word {
        "rule" => add(alloc, &mut asked.theorems, rest)?,
        "guard" => add(alloc, &mut asked.guards, rest)?,
        "goal" => return goal(alloc, asked, rest),
        _ => (),
    }
    Ok(None)
}
