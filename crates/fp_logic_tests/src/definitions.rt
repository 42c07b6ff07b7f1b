//! Definitions of constants.
use fp_kernel::{DefFault, Defs, Thm};
use fp_term::Name;
use fp_texts::{has_text, name, term};
use std::alloc::{AllocError, Global};
use std::test::Fail;

fn define(alloc: Global, defs: &mut Defs, constant: &str, body: &str) -> Result<Thm, DefFault> {
    let constant = name(alloc, constant)?;
    let body = term(alloc, body)?;
    defs.define(alloc, &constant, &body)
}

// `c = (%x. x)`
const STATEMENT: &str =
    "(s (h) (a (a (c eq (fun (fun 'a 'a) (fun (fun 'a 'a) (bool)))) (c c (fun 'a 'a))) (l 'a (b 0))))";

// A theorem on the first definition alone.
fn is_first(theorem: &Thm) -> bool {
    theorem.hyps().len() == 0 && theorem.promises().len() == 0 && theorem.level() == 1
}

fn is_equation(alloc: Global, theorem: &Thm) -> Result<bool, AllocError> {
    Ok(is_first(theorem) && has_text(alloc, theorem, STATEMENT)?)
}

fn is_theorem(alloc: Global, defs: &mut Defs) -> Result<bool, AllocError> {
    match define(alloc, defs, "c", "(l 'a (b 0))") {
        Ok(theorem) => is_equation(alloc, &theorem),
        Err(_) => Err(AllocError),
    }
}

#[test]
fn a_definition_is_a_theorem(rt: HostRuntime) -> Result<(), Fail> {
    let mut defs = Defs::new(rt.alloc())?;
    assert!(rt; is_theorem(rt.alloc(), &mut defs) == Ok(true));
    assert!(rt; defs.level() == 1);
    Ok(())
}

fn kind_of(fault: &DefFault) -> &'static str {
    match fault {
        DefFault::NameTaken(_) => "NameTaken",
        DefFault::UnknownName(_) => "UnknownName",
        DefFault::IllTyped(_) => "IllTyped",
        DefFault::NotInhabitedForm => "NotInhabitedForm",
        DefFault::NotClosed(_) => "NotClosed",
        DefFault::HiddenType(_) => "HiddenType",
        DefFault::NoMemory => "NoMemory",
    }
}

fn name_in(fault: &DefFault) -> Option<&Name> {
    match fault {
        DefFault::NameTaken(name) => Some(name),
        DefFault::UnknownName(name) => Some(name),
        DefFault::IllTyped(_) => None,
        DefFault::NotInhabitedForm => None,
        DefFault::NotClosed(name) => Some(name),
        DefFault::HiddenType(name) => Some(name),
        DefFault::NoMemory => None,
    }
}

// A definition that is refused, the kind of the fault, and the name in it, if there is one.
struct Refusal {
    constant: &'static str,
    body: &'static str,
    kind: &'static str,
    named: &'static str,
}

const REFUSALS: &[Refusal] = &[
    Refusal {
        constant: "eq",
        body: "(c T (bool))",
        kind: "NameTaken",
        named: "eq",
    },
    Refusal {
        constant: "c",
        body: "(a (b 0) (c new (bool)))",
        kind: "UnknownName",
        named: "new",
    },
    Refusal {
        constant: "c",
        body: "(a (b 0) (v x (bool)))",
        kind: "IllTyped",
        named: "",
    },
    Refusal {
        constant: "c",
        body: "(l (bool) (v x (bool)))",
        kind: "NotClosed",
        named: "x",
    },
    Refusal {
        constant: "c",
        body: "(a (l (fun 'a 'a) (c T (bool))) (l 'a (b 0)))",
        kind: "HiddenType",
        named: "a",
    },
    Refusal {
        constant: "c",
        body: "(c c (bool))",
        kind: "UnknownName",
        named: "c",
    },
];

fn is_named(found: Option<&Name>, text: &str) -> bool {
    match found {
        Some(name) => name.as_slice() == text.as_bytes(),
        None => text.is_empty(),
    }
}

fn is_fault(fault: &DefFault, row: &Refusal) -> bool {
    kind_of(fault) == row.kind && is_named(name_in(fault), row.named)
}

fn is_refused(alloc: Global, defs: &mut Defs, row: &Refusal) -> bool {
    match define(alloc, defs, row.constant, row.body) {
        Ok(_) => false,
        Err(fault) => is_fault(&fault, row),
    }
}

fn is_defined(alloc: Global, defs: &mut Defs, constant: &str) -> bool {
    define(alloc, defs, constant, "(c T (bool))").is_ok()
}

// After a refusal the list is as before.
#[test]
fn refusals(rt: HostRuntime) -> Result<(), Fail> {
    let mut defs = Defs::new(rt.alloc())?;
    for row in REFUSALS {
        assert!(rt; is_refused(rt.alloc(), &mut defs, row), "{}", row.body);
        assert!(rt; defs.level() == 0, "{}", row.body);
    }
    assert!(rt; is_defined(rt.alloc(), &mut defs, "c"));
    Ok(())
}

const AGAIN: Refusal = Refusal {
    constant: "c",
    body: "(c F (bool))",
    kind: "NameTaken",
    named: "c",
};

fn is_longer(defs: &Defs) -> bool {
    let signature = defs.signature();
    defs.level() == 1 && signature.consts.len() == 11 && signature.types.len() == 3
}

#[test]
fn a_name_is_defined_once(rt: HostRuntime) -> Result<(), Fail> {
    let mut defs = Defs::new(rt.alloc())?;
    assert!(rt; is_defined(rt.alloc(), &mut defs, "c"));
    assert!(rt; is_refused(rt.alloc(), &mut defs, &AGAIN));
    assert!(rt; is_longer(&defs));
    Ok(())
}

// Defines `c` with a number.
fn is_numbered(alloc: Global, defs: &mut Defs, number: u32) -> Result<bool, AllocError> {
    let constant = format!(in alloc; "c{number}")?;
    Ok(is_defined(alloc, defs, constant.as_str()))
}

// So many definitions that no recursion over their list would fit the stack.
#[test]
fn a_long_list(rt: HostRuntime) -> Result<(), Fail> {
    let mut defs = Defs::new(rt.alloc())?;
    for number in 0..3000 {
        assert!(rt; is_numbered(rt.alloc(), &mut defs, number) == Ok(true));
    }
    assert!(rt; defs.level() == 3000);
    Ok(())
}
