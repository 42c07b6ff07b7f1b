//! The text of a file, from its bytes.
ghost use Rattle.std.specs.Prelude.{◌≡◌, ◌++◌, [], map, true, false, IfOk, OnOk};
ghost use Rattle.fp_lex.specs.Lexes.{Lexes, all};
ghost use Rattle.fp_sources.specs.Sources.{source};
ghost use Rattle.fp_report.specs.Items.{AreShown, item_lines};
ghost use Rattle.fp_report.specs.Reasons.{IsShownReason, refusal_line};
ghost use Rattle.fp_command.specs.Outcome.{session};
ghost use Rattle.fp_command.specs.Reading.{IsExplained};
ghost use Rattle.fp_command.specs.Report.{IsReport, Carries};
ghost use Rattle.fp_command.specs.Steps.{Steps};

use crate::command::carry_out;
use crate::fault::CommandFault;
use fp_lex::{LexFault, Token, tokens};
use fp_measure::MeasureSource;
use fp_report::{Item, Kind, Reason, Refusal, push_item, push_refusal};
use fp_syntax::{Command, SyntaxFault, read_file};
use fp_theory::Theory;
use std::alloc::{AllocError, Global};

/// A whole text, and whether it ends with a refusal.
#[derive(Drop)]
pub struct Text {
    pub bytes: Vec<u8>,
    pub refused: bool,
}

/// The text of a file that isn't read.
pub fn unread(
    alloc: Global,
    full: bool,
    name: &str,
    at: u32,
    reason: Reason,
) -> Result<Text, AllocError>
    requires { IsShownReason reason }
    ensures { IfOk result (λ t. (t.bytes.items ≡ refusal_line full name.now at reason) × (t.refused ≡ true)) }
{
    let mut bytes = Vec::new(alloc);
    push_refusal(&mut bytes, full, name, &Refusal { at, reason })?;
    Ok(Text {
        bytes,
        refused: true,
    })
}

fn push_items(text: &mut Vec<u8>, full: bool, items: &[Item]) -> Result<(), AllocError>
    requires { AreShown items.now }
    ensures { OnOk result (text.new.items ≡ text.old.items ++ item_lines full items.now) }
{
    for item in items {
        push_item(text, full, item)?;
    }
    Ok(())
}

// Carries a command out and puts its lines at the end, and says whether it is refused.
fn carry_one(
    alloc: Global,
    full: bool,
    name: &str,
    command: &Command,
    theory: &mut Theory,
    sources: &mut [Box<dyn MeasureSource + Send + Sync>],
    text: &mut Vec<u8>,
) -> Result<bool, AllocError>
    ensures { IfOk result (λ refused. Steps full name.now (session theory.old (map (λ s. source (habits s) (entries s)) sources.old)) (session theory.new (map (λ s. source (habits s) (entries s)) sources.new)) command.now text.old.items text.new.items refused) }
{
    match carry_out(alloc, command, theory, sources) {
        Ok(items) => {
            push_items(text, full, items.as_slice())?;
            Ok(false)
        }
        Err(CommandFault::Refused(refusal)) => {
            push_refusal(text, full, name, &refusal)?;
            Ok(true)
        }
        Err(CommandFault::NoMemory) => Err(AllocError),
    }
}

// Carries commands out, up to the first that is refused, and says whether there is one.
fn carry_each(
    alloc: Global,
    full: bool,
    name: &str,
    commands: &[Command],
    theory: &mut Theory,
    sources: &mut [Box<dyn MeasureSource + Send + Sync>],
    text: &mut Vec<u8>,
) -> Result<bool, AllocError>
    requires { text.old.items ≡ [] }
    ensures { IfOk result (λ refused. Carries full name.now (session theory.old (map (λ s. source (habits s) (entries s)) sources.old)) commands.now text.new.items refused (session theory.new (map (λ s. source (habits s) (entries s)) sources.new))) }
{
    for command in commands {
        if carry_one(alloc, full, name, command, theory, sources, text)? {
            return Ok(true);
        }
    }
    Ok(false)
}

// Carries the commands of a file out, up to the first that is refused.
fn carry_all(
    alloc: Global,
    full: bool,
    name: &str,
    commands: &[Command],
    theory: &mut Theory,
    sources: &mut [Box<dyn MeasureSource + Send + Sync>],
) -> Result<Text, AllocError>
    ensures { IfOk result (λ t. Carries full name.now (session theory.old (map (λ s. source (habits s) (entries s)) sources.old)) commands.now t.bytes.items t.refused (session theory.new (map (λ s. source (habits s) (entries s)) sources.new))) }
{
    let mut bytes = Vec::new(alloc);
    let refused = carry_each(alloc, full, name, commands, theory, sources, &mut bytes)?;
    Ok(Text { bytes, refused })
}

// The refusal of tokens that are no commands.
fn unreadable(fault: SyntaxFault) -> Result<Refusal, AllocError>
    ensures { IfOk result (λ r. IsExplained fault r.at r.reason × IsShownReason r.reason) }
{
    let (at, kind) = match fault {
        SyntaxFault::Refused(at) => (at, Kind::Syntax),
        SyntaxFault::NameTooLong(at) => (at, Kind::NameTooLong),
        SyntaxFault::TooDeep(at) => (at, Kind::TooDeep),
        SyntaxFault::TooLarge(at) => (at, Kind::TooLarge),
        SyntaxFault::NumberTooLarge(at) => (at, Kind::NumberTooLarge),
        SyntaxFault::NoMemory => return Err(AllocError),
    };
    Ok(Refusal {
        at,
        reason: Reason::Plain(kind),
    })
}

// The text of a file with these tokens.
fn report_tokens(
    alloc: Global,
    full: bool,
    name: &str,
    bytes: &[u8],
    tokens: &[Token],
    theory: &mut Theory,
    sources: &mut [Box<dyn MeasureSource + Send + Sync>],
) -> Result<Text, AllocError>
    requires { Lexes false 0 bytes.now (all tokens.now) }
    ensures { IfOk result (λ t. IsReport full name.now bytes.now (session theory.old (map (λ s. source (habits s) (entries s)) sources.old)) t.bytes.items t.refused (session theory.new (map (λ s. source (habits s) (entries s)) sources.new))) }
{
    match read_file(alloc, bytes, tokens) {
        Ok(commands) => carry_all(alloc, full, name, commands.as_slice(), theory, sources),
        Err(fault) => {
            let refusal = unreadable(fault)?;
            unread(alloc, full, name, refusal.at, refusal.reason)
        }
    }
}

/// The text of a file of these bytes, whose commands are carried out on the theory and the sources of measures.
pub fn report_on(
    alloc: Global,
    full: bool,
    name: &str,
    bytes: &[u8],
    theory: &mut Theory,
    sources: &mut [Box<dyn MeasureSource + Send + Sync>],
) -> Result<Text, AllocError>
    ensures { IfOk result (λ t. IsReport full name.now bytes.now (session theory.old (map (λ s. source (habits s) (entries s)) sources.old)) t.bytes.items t.refused (session theory.new (map (λ s. source (habits s) (entries s)) sources.new))) }
{
    match tokens(alloc, bytes) {
        Ok(tokens) => report_tokens(alloc, full, name, bytes, &tokens, theory, sources),
        Err(LexFault::BadByte(at)) => unread(alloc, full, name, at, Reason::Plain(Kind::BadByte)),
        Err(LexFault::OpenQuote(at)) => {
            unread(alloc, full, name, at, Reason::Plain(Kind::OpenQuote))
        }
        Err(LexFault::NameTooLong(at)) => {
            unread(alloc, full, name, at, Reason::Plain(Kind::NameTooLong))
        }
        Err(LexFault::NoMemory) => Err(AllocError),
    }
}
