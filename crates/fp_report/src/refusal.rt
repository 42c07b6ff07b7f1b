//! The line of a refusal.
ghost use Rattle.std.specs.Prelude.{◌≡◌, ◌++◌, codes, OnOk};
ghost use Rattle.std.specs.Fmt.{decimal};
ghost use Rattle.fp_report.specs.Texts.{statement_text, IsShownStatement};
ghost use Rattle.fp_report.specs.Reasons.{refusal_line, reason_text, reason_lines, naming_text, cause_text, variable_text, shown_byte, shown_file, IsShownReason};

use crate::item::push_statement;
use crate::matrix::push_matrix;
use crate::number::push_number;
use crate::reason::{Cause, Naming, Reason, Variable};
use crate::words::{cause_text, clausal_text, kind_text, naming_text, variable_text};
use fp_term::{Name, Statement};
use std::alloc::AllocError;

/// A reason, and the place of what is refused.
#[derive(Drop)]
pub struct Refusal {
    pub at: u32,
    pub reason: Reason,
}

fn push_of(text: &mut Vec<u8>, naming: Naming, name: &Name) -> Result<(), AllocError>
    ensures { OnOk result (text.new.items ≡ text.old.items ++ (naming_text naming ++ name.now)) }
{
    text.extend_from_slice(naming_text(naming))?;
    text.extend_from_slice(name.as_slice())
}

fn push_rule_name(text: &mut Vec<u8>, line: u32) -> Result<(), AllocError>
    ensures { OnOk result (text.new.items ≡ text.old.items ++ (codes "BadRuleName " ++ decimal line)) }
{
    text.extend_from_slice(b"BadRuleName ")?;
    push_number(text, line)
}

fn push_line(text: &mut Vec<u8>, line: u32, cause: Cause) -> Result<(), AllocError>
    ensures { OnOk result (text.new.items ≡ text.old.items ++ (codes "BadLine " ++ (decimal line ++ (codes " " ++ cause_text cause)))) }
{
    text.extend_from_slice(b"BadLine ")?;
    push_number(text, line)?;
    text.extend_from_slice(b" ")?;
    text.extend_from_slice(cause_text(cause))
}

fn push_end(text: &mut Vec<u8>, full: bool, got: &Statement) -> Result<(), AllocError>
    requires { IsShownStatement got.now }
    ensures { OnOk result (text.new.items ≡ text.old.items ++ (codes "WrongEnd " ++ statement_text full got.now)) }
{
    text.extend_from_slice(b"WrongEnd ")?;
    push_statement(text, full, got)
}

// Puts a word and a number at the end.
fn push_clause(text: &mut Vec<u8>, word: &[u8], number: u32) -> Result<(), AllocError>
    ensures { OnOk result (text.new.items ≡ text.old.items ++ (word.now ++ decimal number)) }
{
    text.extend_from_slice(word)?;
    push_number(text, number)
}

fn push_variable(
    text: &mut Vec<u8>,
    variable: Variable,
    clause: u32,
    name: &Name,
) -> Result<(), AllocError>
    ensures { OnOk result (text.new.items ≡ text.old.items ++ (variable_text variable ++ (decimal clause ++ (codes " " ++ name.now)))) }
{
    push_clause(text, variable_text(variable), clause)?;
    text.extend_from_slice(b" ")?;
    text.extend_from_slice(name.as_slice())
}

fn push_argument(text: &mut Vec<u8>, clause: u32, argument: u32) -> Result<(), AllocError>
    ensures { OnOk result (text.new.items ≡ text.old.items ++ (codes "NotPattern " ++ (decimal clause ++ (codes " " ++ decimal argument)))) }
{
    push_clause(text, b"NotPattern ", clause)?;
    push_clause(text, b" ", argument)
}

// Puts a reason at the end.
fn push_reason(text: &mut Vec<u8>, full: bool, reason: &Reason) -> Result<(), AllocError>
    requires { IsShownReason reason.now }
    ensures { OnOk result (text.new.items ≡ text.old.items ++ reason_text full reason.now) }
{
    match reason {
        Reason::Plain(kind) => text.extend_from_slice(kind_text(*kind)),
        Reason::Of(naming, name) => push_of(text, *naming, name),
        Reason::BadRuleName(line) => push_rule_name(text, *line),
        Reason::BadLine(line, cause) => push_line(text, *line, *cause),
        Reason::WrongEnd(Some(got)) => push_end(text, full, got),
        Reason::WrongEnd(None) => text.extend_from_slice(b"WrongEnd nothing"),
        Reason::InClause(clausal, clause) => push_clause(text, clausal_text(*clausal), *clause),
        Reason::OfVariable(variable, clause, name) => push_variable(text, *variable, *clause, name),
        Reason::NotPattern(clause, argument) => push_argument(text, *clause, *argument),
        Reason::TooManyCalls(number) => push_clause(text, b"TooManyCalls ", *number),
        Reason::NoOrder(_) => text.extend_from_slice(b"NoOrder"),
    }
}

// A byte of a file's name as it is printed.
fn shown_byte(byte: u8) -> u8
    ensures { result ≡ shown_byte byte }
{
    if byte <= 31 || byte == 127 {
        b'?'
    } else {
        byte
    }
}

// Puts the file's name at the end, on one line whatever its bytes.
fn push_file(text: &mut Vec<u8>, name: &str) -> Result<(), AllocError>
    ensures { OnOk result (text.new.items ≡ text.old.items ++ shown_file name.now) }
{
    for byte in name.as_bytes() {
        text.push(shown_byte(*byte))?;
    }
    Ok(())
}

// Puts the line up to the reason at the end.
fn push_head(text: &mut Vec<u8>, file: &str, at: u32) -> Result<(), AllocError>
    ensures { OnOk result (text.new.items ≡ text.old.items ++ (codes "refused " ++ (shown_file file.now ++ (codes " at " ++ (decimal at ++ codes ": "))))) }
{
    text.extend_from_slice(b"refused ")?;
    push_file(text, file)?;
    text.extend_from_slice(b" at ")?;
    push_number(text, at)?;
    text.extend_from_slice(b": ")
}

// Puts the lines behind that of a refusal at the end.
fn push_lines(text: &mut Vec<u8>, full: bool, reason: &Reason) -> Result<(), AllocError>
    requires { IsShownReason reason.now }
    ensures { OnOk result (text.new.items ≡ text.old.items ++ reason_lines full reason.now) }
{
    match reason {
        Reason::NoOrder(matrix) => push_matrix(text, full, matrix),
        _ => Ok(()),
    }
}

/// Puts the line of a refusal at the end, and the lines of a matrix behind it.
pub fn push_refusal(
    text: &mut Vec<u8>,
    full: bool,
    file: &str,
    refusal: &Refusal,
) -> Result<(), AllocError>
    requires { IsShownReason refusal.now.reason }
    ensures { OnOk result (text.new.items ≡ text.old.items ++ refusal_line full file.now refusal.now.at refusal.now.reason) }
{
    push_head(text, file, refusal.at)?;
    push_reason(text, full, &refusal.reason)?;
    text.extend_from_slice(b"\n")?;
    push_lines(text, full, &refusal.reason)
}
