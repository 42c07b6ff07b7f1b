//! What is left of clauses without the earlier ones of their function.
ghost use Rattle.std.specs.Prelude.{◌≡◌, ◌≤◌, ◌<◌, length, IfOk, MatchBool};
ghost use Rattle.fp_pattern.specs.Subtraction.{IsLeft};
ghost use Rattle.fp_pattern.specs.Completed.{patterns_of, IsLimited};

use crate::subtract::minus_all;
use fp_group::{Clause, ConTable};
use fp_term::{Items, Name, Signature};
use std::alloc::{AllocError, Global};

fn is_beyond(clauses: &[Clause]) -> bool
    ensures { MatchBool result (256 < length clauses.now) (length clauses.now ≤ 256) }
{
    clauses.len() > 256
}

/// What is left of the clauses without those of the function; nothing where a list on the way has more than 256.
#[tactic(auto, using(crate::proofs::Within::end_within, crate::proofs::Within::skip_within, crate::proofs::Within::pass_within, crate::proofs::Within::go_within))]
pub(crate) fn left_within(
    alloc: Global,
    table: &ConTable,
    signature: &Signature,
    name: &Name,
    now: Items<Clause>,
    function: u32,
    earlier: &[Clause],
) -> Result<Option<Items<Clause>>, AllocError>
    ensures { IfOk result (λ o. IsLimited table.now signature.now name.now (patterns_of function earlier.now) now o) }
{
    match earlier {
        [] => Ok(Some(now)),
        [clause, rest @ ..] => {
            if clause.function != function {
                return left_within(alloc, table, signature, name, now, function, rest);
            }
            let patterns = clause.patterns.as_slice();
            let next = minus_all(alloc, table, signature, name, now.as_slice(), patterns)?;
            if is_beyond(next.as_slice()) {
                return Ok(None);
            }
            left_within(alloc, table, signature, name, next, function, rest)
        }
    }
}

/// What is left of the clauses without those of the function.
#[tactic(auto, using(crate::proofs::Within::skip_left, crate::proofs::Within::go_left))]
pub(crate) fn left_of(
    alloc: Global,
    table: &ConTable,
    signature: &Signature,
    name: &Name,
    now: Items<Clause>,
    function: u32,
    earlier: &[Clause],
) -> Result<Items<Clause>, AllocError>
    ensures { IfOk result (λ left. IsLeft table.now signature.now name.now (patterns_of function earlier.now) now left) }
{
    match earlier {
        [] => Ok(now),
        [clause, rest @ ..] => {
            if clause.function != function {
                return left_of(alloc, table, signature, name, now, function, rest);
            }
            let patterns = clause.patterns.as_slice();
            let next = minus_all(alloc, table, signature, name, now.as_slice(), patterns)?;
            left_of(alloc, table, signature, name, next, function, rest)
        }
    }
}
