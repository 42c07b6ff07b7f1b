//! The lines: `head COUNT CONSTANT` is a function of so many arguments, `clause FUNCTION EQUATION` a
//! clause, `measure FUNCTION TERM` a measure, `cong TERM` a congruence rule, `rule TERM` a rule of the simplifier, and `grid`
//! asks for the verdicts, after which the rules stay. Functions are told by their numbers from 0, and terms are in the full form.

use crate::grid::grid;
use fp_conclude::{function_parts, sides};
use fp_cong_rule::cong_rule;
use fp_full::read_full_term;
use fp_group::{Clause, CongRule, CongTable, Head};
use fp_term::{Items, Name, Node, Term, Ty, arguments, copy_all};
use std::alloc::{AllocError, Global};
use std::mem;

/// A group with what its cells are decided by.
#[derive(Drop)]
pub struct Written {
    pub heads: Items<Head>,
    pub clauses: Items<Clause>,
    pub measures: Items<(u32, Term)>,
    pub congs: CongTable,
    pub theorems: Items<Term>,
}

impl Written {
    /// Nothing yet.
    pub fn new(alloc: Global) -> Written {
        Written {
            heads: Items::new(alloc),
            clauses: Items::new(alloc),
            measures: Items::new(alloc),
            congs: CongTable {
                rules: Items::new(alloc),
            },
            theorems: Items::new(alloc),
        }
    }
}

fn term_of(alloc: Global, text: &str) -> Result<Term, AllocError> {
    let bytes = text.as_bytes();
    if bytes.len() > 100000000 {
        return Err(AllocError);
    }
    match read_full_term(alloc, bytes) {
        Ok(term) => Ok(term),
        Err(_fault) => Err(AllocError),
    }
}

// The number before the first space, and the term behind it.
fn number_and_term(alloc: Global, text: &str) -> Result<(u32, Term), AllocError> {
    let Some((number, rest)) = text.split_once(' ') else {
        return Err(AllocError);
    };
    match number.parse::<u32>() {
        Ok(number) => Ok((number, term_of(alloc, rest)?)),
        Err(_) => Err(AllocError),
    }
}

// The types of so many arguments, and that of the result.
fn parts(alloc: Global, ty: &Ty, count: u32) -> Result<(Items<Ty>, Ty), AllocError> {
    let mut args = Items::new(alloc);
    let mut rest = ty.copy()?;
    for _ in 0..count {
        let result = match function_parts(&rest) {
            Some((from, to)) => {
                args.push(from.copy()?)?;
                to.copy()?
            }
            None => return Err(AllocError),
        };
        rest = result;
    }
    Ok((args, rest))
}

fn head(alloc: Global, count: u32, constant: &Term) -> Result<Head, AllocError> {
    match constant.node() {
        Node::Const { name, ty } => {
            let (args, result) = parts(alloc, ty, count)?;
            Ok(Head {
                name: name.copy()?,
                args,
                result,
            })
        }
        _ => Err(AllocError),
    }
}

fn clause(alloc: Global, function: u32, equation: &Term) -> Result<Clause, AllocError> {
    match sides(equation) {
        Some(parts) => Ok(Clause {
            function,
            patterns: arguments(alloc, parts.left)?,
            right: parts.right.copy()?,
            origin: None,
        }),
        None => Err(AllocError),
    }
}

#[tactic(auto, unfolding(fp_term::specs::Names::is_name))]
fn add_cong(alloc: Global, congs: &mut Items<CongRule>, term: &Term) -> Result<(), AllocError> {
    let name = Name::of(alloc, b"rule")?;
    match cong_rule(alloc, &name, term)? {
        Some(rule) => congs.push(rule),
        None => Ok(()),
    }
}

// Takes a part of the group.
fn add(alloc: Global, written: &mut Written, word: &str, rest: &str) -> Result<(), AllocError> {
    match word {
        "head" => {
            let (count, constant) = number_and_term(alloc, rest)?;
            written.heads.push(head(alloc, count, &constant)?)
        }
        "clause" => {
            let (function, equation) = number_and_term(alloc, rest)?;
            written.clauses.push(clause(alloc, function, &equation)?)
        }
        "measure" => written.measures.push(number_and_term(alloc, rest)?),
        "cong" => add_cong(alloc, &mut written.congs.rules, &term_of(alloc, rest)?),
        "rule" => written.theorems.push(term_of(alloc, rest)?),
        _ => Ok(()),
    }
}

/// Takes the line, and gives the verdicts where it asks for them.
pub fn taken(
    alloc: Global,
    written: &mut Written,
    line: &str,
) -> Result<Option<String>, AllocError> {
    if line == "grid" {
        let mut further = Written::new(alloc);
        further.congs = written.congs.copy(alloc)?;
        further.theorems = copy_all(alloc, written.theorems.as_slice())?;
        let whole = mem::replace(written, further);
        return Ok(Some(grid(alloc, whole)?));
    }
    if let Some((word, rest)) = line.split_once(' ') {
        add(alloc, written, word, rest)?;
    }
    Ok(None)
}
