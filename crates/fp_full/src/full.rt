//! The public readers.
ghost use Rattle.std.specs.Prelude.{◌≡◌, ◌<◌, ◌^◌, length, map, IfOk, OnOk};
ghost use Rattle.fp_full.specs.Texts.{Parsed as Reading, of_term, of_statement, of_file, a_term, a_statement, entries, kind_of, IsText, FirstBad, KeepsLimits, FirstTooDeep, FirstTooLong};
ghost use Rattle.fp_full.specs.Views.{entries_of, IsRefusedAt, IsTooDeepAt, IsNameTooLongAt, IsReadAs, IsTextOfPairs, pair_of, statement_seen, definitions_seen};

use crate::fault::FullFault;
use crate::parsed::{Definition, Kind, Parsed};
use crate::reader::read;
use fp_term::{Items, Name, Statement, Term};
use std::alloc::{AllocError, Global};

/// The term whose text the bytes are.
pub fn read_full_term(alloc: Global, bytes: &[u8]) -> Result<Term, FullFault>
    requires { length bytes.now < 2 ^ 32 }

    // What is read is a text of the term within the limits, and such a text is read, unless memory runs out.
    ensures found { IfOk result (λ t. IsText bytes.now (a_term t)) }
    ensures limits { OnOk result (KeepsLimits bytes.now (length bytes.now)) }
    ensures only { (p : Reading) → kind_of p ≡ of_term → IsText bytes.now p → KeepsLimits bytes.now (length bytes.now) → IsReadAs a_term p result }

    // A fault is the first one.
    ensures refused { IsRefusedAt result (λ at. FirstBad of_term bytes.now at × KeepsLimits bytes.now at) }
    ensures too_deep { IsTooDeepAt result (FirstTooDeep of_term bytes.now) }
    ensures too_long { IsNameTooLongAt result (FirstTooLong of_term bytes.now) }
{
    match read(alloc, bytes, Kind::Term) {
        Ok(Parsed::Term(term)) => Ok(term),
        Ok(Parsed::Statement { .. }) => unreachable!(),
        Ok(Parsed::Definitions(_)) => unreachable!(),
        Err(fault) => Err(fault),
    }
}

/// The statement whose text the bytes are.
pub fn read_full(alloc: Global, bytes: &[u8]) -> Result<Statement, FullFault>
    requires { length bytes.now < 2 ^ 32 }
    ensures found { IfOk result (λ s. IsText bytes.now (a_statement s.hyps s.concl)) }
    ensures limits { OnOk result (KeepsLimits bytes.now (length bytes.now)) }
    ensures only { (p : Reading) → kind_of p ≡ of_statement → IsText bytes.now p → KeepsLimits bytes.now (length bytes.now) → IsReadAs statement_seen p result }
    ensures refused { IsRefusedAt result (λ at. FirstBad of_statement bytes.now at × KeepsLimits bytes.now at) }
    ensures too_deep { IsTooDeepAt result (FirstTooDeep of_statement bytes.now) }
    ensures too_long { IsNameTooLongAt result (FirstTooLong of_statement bytes.now) }
{
    match read(alloc, bytes, Kind::Statement) {
        Ok(Parsed::Statement { hyps, concl }) => Ok(Statement {
            hyps: Items::from_vec(hyps),
            concl,
        }),
        Ok(Parsed::Term(_)) => unreachable!(),
        Ok(Parsed::Definitions(_)) => unreachable!(),
        Err(fault) => Err(fault),
    }
}

/// The definitions of a file, with their places.
pub fn read_definitions_at(alloc: Global, bytes: &[u8]) -> Result<Vec<Definition>, FullFault>
    requires { length bytes.now < 2 ^ 32 }
    ensures found { IfOk result (λ v. IsText bytes.now (entries (entries_of v.items))) }
    ensures limits { OnOk result (KeepsLimits bytes.now (length bytes.now)) }
    ensures only { (p : Reading) → kind_of p ≡ of_file → IsText bytes.now p → KeepsLimits bytes.now (length bytes.now) → IsReadAs definitions_seen p result }
    ensures refused { IsRefusedAt result (λ at. FirstBad of_file bytes.now at × KeepsLimits bytes.now at) }
    ensures too_deep { IsTooDeepAt result (FirstTooDeep of_file bytes.now) }
    ensures too_long { IsNameTooLongAt result (FirstTooLong of_file bytes.now) }
{
    match read(alloc, bytes, Kind::File) {
        Ok(Parsed::Definitions(definitions)) => Ok(definitions),
        Ok(Parsed::Term(_)) => unreachable!(),
        Ok(Parsed::Statement { .. }) => unreachable!(),
        Err(fault) => Err(fault),
    }
}

// The names and terms of the definitions.
fn named(alloc: Global, definitions: &[Definition]) -> Result<Vec<(Name, Term)>, AllocError>
    ensures { IfOk result (λ v. v.items ≡ map pair_of (entries_of definitions.now)) }
{
    let mut pairs = Vec::new(alloc);
    for definition in definitions {
        pairs.push((definition.name.copy()?, definition.term.copy()?))?;
    }
    Ok(pairs)
}

/// The names and terms of the definitions of a file.
pub fn read_definitions(alloc: Global, bytes: &[u8]) -> Result<Vec<(Name, Term)>, FullFault>
    requires { length bytes.now < 2 ^ 32 }
    ensures found { IfOk result (λ v. IsTextOfPairs bytes.now v.items) }
    ensures limits { OnOk result (KeepsLimits bytes.now (length bytes.now)) }
    ensures refused { IsRefusedAt result (λ at. FirstBad of_file bytes.now at × KeepsLimits bytes.now at) }
    ensures too_deep { IsTooDeepAt result (FirstTooDeep of_file bytes.now) }
    ensures too_long { IsNameTooLongAt result (FirstTooLong of_file bytes.now) }
{
    match read_definitions_at(alloc, bytes) {
        Ok(definitions) => Ok(named(alloc, &definitions)?),
        Err(fault) => Err(fault),
    }
}
