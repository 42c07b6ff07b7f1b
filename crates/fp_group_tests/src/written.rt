//! Groups of written texts.
use fp_conclude::{function_parts, sides};
use fp_cong::calls;
use fp_cong_rule::cong_rule;
use fp_full::read_full_term;
use fp_group::{CallSite, Clause, CongRule, CongTable, Group, Head};
use fp_term::{Items, Name, Node, Term, Ty, arguments};
use std::alloc::{AllocError, Global};

/// A group: what its marks stand for, its functions with the numbers of their arguments, and its clauses with the numbers of
/// their functions.
#[derive(Clone, Copy)]
pub struct Written<'a> {
    pub marks: &'a [(u8, &'a str)],
    pub functions: &'a [(&'a str, usize)],
    pub clauses: &'a [(u32, &'a str)],
}

fn spelled<'a>(marks: &[(u8, &'a str)], byte: u8) -> Option<&'a str> {
    for (mark, meaning) in marks {
        if *mark == byte {
            return Some(*meaning);
        }
    }
    None
}

/// The text with what its marks stand for.
pub fn full(alloc: Global, marks: &[(u8, &str)], text: &str) -> Result<Vec<u8>, AllocError> {
    let mut bytes = Vec::new(alloc);
    for byte in text.as_bytes() {
        match spelled(marks, *byte) {
            Some(meaning) => bytes.extend_from_slice(meaning.as_bytes())?,
            None => bytes.push(*byte)?,
        }
    }
    Ok(bytes)
}

/// The name.
pub fn name(alloc: Global, text: &str) -> Result<Name, AllocError> {
    Name::new(alloc, text.as_bytes())?.ok_or(AllocError)
}

/// The term of a text.
pub fn term(alloc: Global, marks: &[(u8, &str)], text: &str) -> Result<Term, AllocError> {
    let bytes = full(alloc, marks, text)?;
    if bytes.len() > 100000 {
        return Err(AllocError);
    }
    match read_full_term(alloc, bytes.as_slice()) {
        Ok(term) => Ok(term),
        Err(_fault) => Err(AllocError),
    }
}

// The types of so many arguments, and that of the result.
fn parts(alloc: Global, ty: &Ty, count: usize) -> Result<(Items<Ty>, Ty), AllocError> {
    let mut args = Items::new(alloc);
    let mut rest = ty.copy()?;
    for _ in 0..count {
        let result = match function_parts(&rest) {
            Some((from, to)) => {
                args.push(from.copy()?)?;
                to.copy()?
            }
            None => return Err(AllocError),
        };
        rest = result;
    }
    Ok((args, rest))
}

fn head(alloc: Global, constant: &Term, count: usize) -> Result<Head, AllocError> {
    match constant.node() {
        Node::Const { name, ty } => {
            let (args, result) = parts(alloc, ty, count)?;
            Ok(Head {
                name: name.copy()?,
                args,
                result,
            })
        }
        _ => Err(AllocError),
    }
}

fn clause(alloc: Global, function: u32, equation: &Term) -> Result<Clause, AllocError> {
    match sides(equation) {
        Some(parts) => Ok(Clause {
            function,
            patterns: arguments(alloc, parts.left)?,
            right: parts.right.copy()?,
            origin: None,
        }),
        None => Err(AllocError),
    }
}

/// `b = c --> (c --> x = u) --> (~ c --> y = v) --> If b x y = If c u v`
const IF_CONG: &str =
    "(a (a (c imp (fun (bool) (fun (bool) (bool)))) (a (a (c eq (fun (bool) (fun (bool) (bool)))) (v b (bool))) (v c (bool)))) (a (a (c imp (fun (bool) (fun (bool) (bool)))) (a (a (c imp (fun (bool) (fun (bool) (bool)))) (v c (bool))) (a (a (c eq (fun 'a (fun 'a (bool)))) (v x 'a)) (v u 'a)))) (a (a (c imp (fun (bool) (fun (bool) (bool)))) (a (a (c imp (fun (bool) (fun (bool) (bool)))) (a (c not (fun (bool) (bool))) (v c (bool)))) (a (a (c eq (fun 'a (fun 'a (bool)))) (v y 'a)) (v v 'a)))) (a (a (c eq (fun 'a (fun 'a (bool)))) (a (a (a (c If (fun (bool) (fun 'a (fun 'a 'a)))) (v b (bool))) (v x 'a)) (v y 'a))) (a (a (a (c If (fun (bool) (fun 'a (fun 'a 'a)))) (v c (bool))) (v u 'a)) (v v 'a))))))";

fn rules(alloc: Global) -> Result<CongTable, AllocError> {
    let name = name(alloc, "If_cong")?;
    let mut rules: Items<CongRule> = Items::new(alloc);
    if let Some(rule) = cong_rule(alloc, &name, &term(alloc, &[], IF_CONG)?)? {
        rules.push(rule)?;
    }
    Ok(CongTable { rules })
}

fn sites(
    alloc: Global,
    clauses: &[Clause],
    heads: &[Head],
    rules: &CongTable,
) -> Result<Items<CallSite>, AllocError> {
    match calls(alloc, clauses, heads, rules, 64) {
        Ok(sites) => Ok(sites),
        Err(_fault) => Err(AllocError),
    }
}

/// The heads of the functions.
pub fn heads(alloc: Global, written: &Written<'_>) -> Result<Items<Head>, AllocError> {
    let mut heads = Items::new(alloc);
    for (text, count) in written.functions {
        let constant = term(alloc, written.marks, *text)?;
        heads.push(head(alloc, &constant, *count)?)?;
    }
    Ok(heads)
}

/// The clauses as they are written.
pub fn clauses(alloc: Global, written: &Written<'_>) -> Result<Items<Clause>, AllocError> {
    let mut clauses = Items::new(alloc);
    for (function, text) in written.clauses {
        let equation = term(alloc, written.marks, *text)?;
        clauses.push(clause(alloc, *function, &equation)?)?;
    }
    Ok(clauses)
}

/// The group.
pub fn group(alloc: Global, written: &Written<'_>) -> Result<Group, AllocError> {
    let heads = heads(alloc, written)?;
    let clauses = clauses(alloc, written)?;
    let rules = rules(alloc)?;
    let sites = sites(alloc, clauses.as_slice(), heads.as_slice(), &rules)?;
    Ok(Group {
        heads,
        clauses,
        sites,
        rules,
    })
}
