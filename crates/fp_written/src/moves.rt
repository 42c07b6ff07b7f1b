//! What each symbol does with a word.
ghost use Rattle.std.specs.Prelude.{◌≡◌, ◌+◌, IfOk, cond, [], max};
ghost use Rattle.std.specs.Option.{option_map};
ghost use Rattle.fp_written.specs.Machine.{does, reads_so, takes, stops, term_move, more_move, joins, applies, joined, argued, opened_argument, passes, after_whole_move, after_term_move, after_part_move, vars_move, more_vars_move, var_name_move, ty_move, more_ty_move, after_ty_move, after_arg_move, con_name_move};
ghost use Rattle.fp_written.specs.Written.{level, left, right, ty_level, ty_left};
ghost use Rattle.fp_written.specs.Views.{move_of, symbol_of};

use crate::symbol::Symbol;
use fp_words::{Binder, Infix, Placed, Word};
use std::alloc::{AllocError, Global};

/// What a symbol does with a word.
#[derive(Drop)]
pub(crate) enum Move<'a> {
    /// At this depth the word is taken, and these are to be read next.
    Takes(u32, Vec<Symbol<'a>>),
    Passes,
    Stops,
}

// The sum, where it isn't past all numbers.
pub(crate) fn plus(count: u32, more: u32) -> Result<u32, AllocError>
    ensures { IfOk result (λ n. n ≡ count + more) }
{
    count.checked_add(more).ok_or(AllocError)
}

fn level_of(o: Infix) -> u8
    ensures { result ≡ level o }
{
    match o {
        Infix::Implies => 1,
        Infix::Disj => 2,
        Infix::Conj => 3,
        Infix::Equal | Infix::Less | Infix::Leq => 5,
        Infix::Plus | Infix::Minus => 6,
        Infix::Times => 7,
        Infix::Arrow => 0,
    }
}

fn left_need(o: Infix) -> u8
    ensures { result ≡ left o }
{
    match o {
        Infix::Implies => 2,
        Infix::Disj => 3,
        Infix::Conj => 4,
        Infix::Equal | Infix::Less | Infix::Leq => 6,
        Infix::Plus | Infix::Minus => 6,
        Infix::Times => 7,
        Infix::Arrow => 20,
    }
}

fn right_need(o: Infix) -> u8
    ensures { result ≡ right o }
{
    match o {
        Infix::Implies => 1,
        Infix::Disj => 2,
        Infix::Conj => 3,
        Infix::Equal | Infix::Less | Infix::Leq => 6,
        Infix::Plus | Infix::Minus => 7,
        Infix::Times => 8,
        Infix::Arrow => 9,
    }
}

fn type_level(o: Infix) -> u8
    ensures { result ≡ ty_level o }
{
    match o {
        Infix::Arrow => 1,
        Infix::Plus => 2,
        Infix::Times => 3,
        _ => 0,
    }
}

fn type_left_need(o: Infix) -> u8
    ensures { result ≡ ty_left o }
{
    match o {
        Infix::Arrow => 2,
        Infix::Plus => 3,
        Infix::Times => 4,
        _ => 9,
    }
}

fn on_term<'a>(alloc: Global, n: u8, k: u32, token: &'a Placed) -> Result<Move<'a>, AllocError>
    ensures { IfOk result (λ m. move_of m ≡ term_move n k token.now.word token.now.at) }
{
    let at = token.at;
    let inside = plus(k, 1)?;
    let deep = plus(k, 2)?;
    Ok(match &token.word {
        Word::Name(x) => Move::Takes(
            inside,
            vec![in alloc; Symbol::MakeName(x, at), Symbol::MoreTerm(9, n, k)]?,
        ),
        Word::Number(x) => Move::Takes(
            inside,
            vec![in alloc; Symbol::MakeNumber(*x, at), Symbol::MoreTerm(9, n, k)]?,
        ),
        Word::Open => Move::Takes(
            deep,
            vec![in alloc;
                Symbol::Term(0, inside),
                Symbol::AfterTerm(k),
                Symbol::MoreTerm(9, n, k),
            ]?,
        ),
        Word::Negation if n <= 4 => Move::Takes(
            deep,
            vec![in alloc;
                Symbol::Term(4, inside),
                Symbol::MakeNot(at),
                Symbol::MoreTerm(4, n, k),
            ]?,
        ),
        Word::Binds(b) if n == 0 => Move::Takes(
            deep,
            vec![in alloc; Symbol::Vars(*b, k), Symbol::Deepen]?,
        ),
        Word::If if n == 0 => Move::Takes(
            deep,
            vec![in alloc;
                Symbol::Term(0, inside),
                Symbol::WantThen,
                Symbol::Term(0, inside),
                Symbol::WantElse,
                Symbol::Term(0, inside),
                Symbol::MakeIf(at),
            ]?,
        ),
        _ => Move::Stops,
    })
}

// Whether an operator may follow a term of the first level, so that the whole has at least the second.
fn may_join(l: u8, n: u8, o: Infix) -> bool
    ensures { result ≡ joins l n o }
{
    n <= level_of(o) && left_need(o) <= l
}

// Whether an argument may.
fn may_apply(l: u8, n: u8) -> bool
    ensures { result ≡ applies l n }
{
    n <= 8 && 8 <= l
}

fn join<'a>(
    alloc: Global,
    may: bool,
    n: u8,
    k: u32,
    depth: u32,
    o: Infix,
    at: u32,
) -> Result<Move<'a>, AllocError>
    ensures { IfOk result (λ m. move_of m ≡ joined may n k depth o at) }
{
    if !may {
        return Ok(Move::Passes);
    }
    let deep = plus(k, plus(depth, 1)?)?;
    Ok(Move::Takes(
        deep,
        vec![in alloc;
            Symbol::Term(right_need(o), plus(k, 1)?),
            Symbol::MakeInfix(o, at),
            Symbol::MoreTerm(level_of(o), n, k),
        ]?,
    ))
}

fn argument<'a>(
    alloc: Global,
    may: bool,
    n: u8,
    k: u32,
    depth: u32,
    first: Symbol<'a>,
) -> Result<Move<'a>, AllocError>
    ensures { IfOk result (λ m. move_of m ≡ argued may n k depth (symbol_of first.entry)) }
{
    if !may {
        return Ok(Move::Passes);
    }
    let deep = plus(k, plus(depth, 1)?)?;
    Ok(Move::Takes(
        deep,
        vec![in alloc;
            first,
            Symbol::MoreTerm(9, 9, plus(k, 1)?),
            Symbol::MakeApp,
            Symbol::MoreTerm(8, n, k),
        ]?,
    ))
}

fn open_argument<'a>(
    alloc: Global,
    may: bool,
    n: u8,
    k: u32,
    depth: u32,
) -> Result<Move<'a>, AllocError>
    ensures { IfOk result (λ m. move_of m ≡ cond may (opened_argument n k depth) passes) }
{
    if !may {
        return Ok(Move::Passes);
    }
    let inside = plus(k, 1)?;
    let deep = plus(k, plus(depth.max(2), 1)?)?;
    Ok(Move::Takes(
        deep,
        vec![in alloc;
            Symbol::Term(0, plus(inside, 1)?),
            Symbol::AfterTerm(inside),
            Symbol::MoreTerm(9, 9, inside),
            Symbol::MakeApp,
            Symbol::MoreTerm(8, n, k),
        ]?,
    ))
}

fn on_more<'a>(
    alloc: Global,
    l: u8,
    n: u8,
    k: u32,
    depth: u32,
    token: &'a Placed,
) -> Result<Move<'a>, AllocError>
    ensures { IfOk result (λ m. move_of m ≡ more_move l n k depth token.now.word token.now.at) }
{
    let at = token.at;
    match &token.word {
        Word::Between(o) => join(alloc, may_join(l, n, *o), n, k, depth, *o, at),
        Word::Name(x) => argument(alloc, may_apply(l, n), n, k, depth, Symbol::MakeName(x, at)),
        Word::Number(x) => argument(
            alloc,
            may_apply(l, n),
            n,
            k,
            depth,
            Symbol::MakeNumber(*x, at),
        ),
        Word::Open => open_argument(alloc, may_apply(l, n), n, k, depth),
        _ => Ok(Move::Passes),
    }
}

fn after_whole<'a>(alloc: Global, depth: u32, token: &'a Placed) -> Result<Move<'a>, AllocError>
    ensures { IfOk result (λ m. move_of m ≡ after_whole_move depth token.now.word token.now.at) }
{
    Ok(match &token.word {
        Word::Colons => Move::Takes(
            plus(depth, 1)?,
            vec![in alloc; Symbol::Ty(1, 1), Symbol::MakeTyped(token.at)]?,
        ),
        _ => Move::Passes,
    })
}

fn after_term<'a>(
    alloc: Global,
    k: u32,
    depth: u32,
    token: &'a Placed,
) -> Result<Move<'a>, AllocError>
    ensures { IfOk result (λ m. move_of m ≡ after_term_move k depth token.now.word token.now.at) }
{
    let at = token.at;
    Ok(match &token.word {
        Word::Close => Move::Takes(0, vec![in alloc; Symbol::Deepen]?),
        Word::Colons => Move::Takes(
            plus(k, plus(depth, 2)?)?,
            vec![in alloc;
                Symbol::Ty(1, plus(k, 2)?),
                Symbol::WantClose,
                Symbol::MakeTyped(at),
                Symbol::Deepen,
            ]?,
        ),
        Word::Comma => Move::Takes(
            0,
            vec![in alloc;
                Symbol::Term(0, plus(k, 1)?),
                Symbol::AfterPart(k),
                Symbol::MakePair(at),
                Symbol::Deepen,
            ]?,
        ),
        _ => Move::Stops,
    })
}

fn after_part<'a>(alloc: Global, k: u32, token: &'a Placed) -> Result<Move<'a>, AllocError>
    ensures { IfOk result (λ m. move_of m ≡ after_part_move k token.now.word token.now.at) }
{
    let at = token.at;
    Ok(match &token.word {
        Word::Close => Move::Takes(0, Vec::new(alloc)),
        Word::Comma => Move::Takes(
            0,
            vec![in alloc;
                Symbol::Term(0, plus(k, 1)?),
                Symbol::AfterPart(k),
                Symbol::MakePair(at),
            ]?,
        ),
        _ => Move::Stops,
    })
}

fn on_vars<'a>(alloc: Global, b: Binder, k: u32, token: &'a Placed) -> Result<Move<'a>, AllocError>
    ensures { IfOk result (λ m. move_of m ≡ vars_move b k token.now.word token.now.at) }
{
    let at = token.at;
    Ok(match &token.word {
        Word::Name(x) => Move::Takes(
            0,
            vec![in alloc; Symbol::MoreVars(b, k), Symbol::MakeAbs(b, x, at)]?,
        ),
        Word::Open => Move::Takes(plus(k, 3)?, vec![in alloc; Symbol::VarName(b, k)]?),
        _ => Move::Stops,
    })
}

fn on_more_vars<'a>(
    alloc: Global,
    b: Binder,
    k: u32,
    token: &'a Placed,
) -> Result<Move<'a>, AllocError>
    ensures { IfOk result (λ m. move_of m ≡ more_vars_move b k token.now.word token.now.at) }
{
    let at = token.at;
    Ok(match &token.word {
        Word::Name(x) => Move::Takes(
            0,
            vec![in alloc; Symbol::MoreVars(b, k), Symbol::MakeAbs(b, x, at)]?,
        ),
        Word::Open => Move::Takes(plus(k, 3)?, vec![in alloc; Symbol::VarName(b, k)]?),
        Word::Dot => Move::Takes(0, vec![in alloc; Symbol::Term(0, plus(k, 1)?)]?),
        _ => Move::Stops,
    })
}

fn on_var_name<'a>(
    alloc: Global,
    b: Binder,
    k: u32,
    token: &'a Placed,
) -> Result<Move<'a>, AllocError>
    ensures { IfOk result (λ m. move_of m ≡ var_name_move b k token.now.word token.now.at) }
{
    let at = token.at;
    Ok(match &token.word {
        Word::Name(x) => Move::Takes(
            0,
            vec![in alloc;
                Symbol::WantColons,
                Symbol::Ty(1, plus(k, 2)?),
                Symbol::WantClose,
                Symbol::MoreVars(b, k),
                Symbol::MakeTypedAbs(b, x, at),
            ]?,
        ),
        _ => Move::Stops,
    })
}

fn on_type<'a>(alloc: Global, n: u8, k: u32, token: &'a Placed) -> Result<Move<'a>, AllocError>
    ensures { IfOk result (λ m. move_of m ≡ ty_move n k token.now.word token.now.at) }
{
    let at = token.at;
    let inside = plus(k, 1)?;
    Ok(match &token.word {
        Word::TyVar(x) => Move::Takes(
            inside,
            vec![in alloc; Symbol::MakeTyVar(x, at), Symbol::MoreTy(5, n, k)]?,
        ),
        Word::Name(x) => Move::Takes(
            inside,
            vec![in alloc; Symbol::MakeCon(x, at), Symbol::MoreTy(5, n, k)]?,
        ),
        Word::Open => Move::Takes(
            plus(k, 2)?,
            vec![in alloc;
                Symbol::Ty(1, inside),
                Symbol::AfterTy(k),
                Symbol::MoreTy(5, n, k),
            ]?,
        ),
        _ => Move::Stops,
    })
}

fn on_more_type<'a>(
    alloc: Global,
    l: u8,
    n: u8,
    k: u32,
    depth: u32,
    token: &'a Placed,
) -> Result<Move<'a>, AllocError>
    ensures { IfOk result (λ m. move_of m ≡ more_ty_move l n k depth token.now.word token.now.at) }
{
    let at = token.at;
    let deep = plus(k, plus(depth, 1)?)?;
    Ok(match &token.word {
        Word::Between(o) if n <= type_level(*o) && type_left_need(*o) <= l => {
            Move::Takes(
                deep,
                vec![in alloc;
                    Symbol::Ty(type_level(*o), plus(k, 1)?),
                    Symbol::MakeTyInfix(*o, at),
                    Symbol::MoreTy(type_level(*o), n, k),
                ]?,
            )
        }
        Word::Name(x) if n <= 4 && 4 <= l => Move::Takes(
            deep,
            vec![in alloc; Symbol::MakePost(x, at), Symbol::MoreTy(4, n, k)]?,
        ),
        _ => Move::Passes,
    })
}

fn after_type<'a>(alloc: Global, k: u32, token: &'a Placed) -> Result<Move<'a>, AllocError>
    ensures { IfOk result (λ m. move_of m ≡ after_ty_move k token.now.word token.now.at) }
{
    Ok(match &token.word {
        Word::Close => Move::Takes(0, vec![in alloc; Symbol::DeepenTy]?),
        Word::Comma => Move::Takes(
            0,
            vec![in alloc;
                Symbol::Ty(1, plus(k, 1)?),
                Symbol::AfterArg(k),
                Symbol::MakeArg,
                Symbol::MakeArg,
            ]?,
        ),
        _ => Move::Stops,
    })
}

fn after_arg<'a>(alloc: Global, k: u32, token: &'a Placed) -> Result<Move<'a>, AllocError>
    ensures { IfOk result (λ m. move_of m ≡ after_arg_move k token.now.word token.now.at) }
{
    Ok(match &token.word {
        Word::Close => Move::Takes(0, vec![in alloc; Symbol::ConName]?),
        Word::Comma => Move::Takes(
            0,
            vec![in alloc;
                Symbol::Ty(1, plus(k, 1)?),
                Symbol::AfterArg(k),
                Symbol::MakeArg,
            ]?,
        ),
        _ => Move::Stops,
    })
}

fn on_con_name<'a>(alloc: Global, token: &'a Placed) -> Result<Move<'a>, AllocError>
    ensures { IfOk result (λ m. move_of m ≡ con_name_move token.now.word token.now.at) }
{
    Ok(match &token.word {
        Word::Name(x) => Move::Takes(0, vec![in alloc; Symbol::MakeCon(x, token.at)]?),
        _ => Move::Stops,
    })
}

fn only<'a>(alloc: Global, is_wanted: bool) -> Move<'a>
    ensures { move_of result ≡ cond is_wanted (takes 0 []) stops }
{
    if is_wanted {
        Move::Takes(0, Vec::new(alloc))
    } else {
        Move::Stops
    }
}

/// What the symbol does with the word, or nothing where it makes something. The depths are those of the last term and type.
pub(crate) fn on_word<'a>(
    alloc: Global,
    symbol: Symbol<'a>,
    depth: u32,
    type_depth: u32,
    token: &'a Placed,
) -> Result<Option<Move<'a>>, AllocError>
    ensures { IfOk result (λ m. option_map move_of m ≡ reads_so (does (symbol_of symbol.entry)) depth type_depth token.now.word token.now.at) }
{
    Ok(Some(match symbol {
        Symbol::Term(n, k) => on_term(alloc, n, k, token)?,
        Symbol::MoreTerm(l, n, k) => on_more(alloc, l, n, k, depth, token)?,
        Symbol::AfterWhole => after_whole(alloc, depth, token)?,
        Symbol::AfterTerm(k) => after_term(alloc, k, depth, token)?,
        Symbol::AfterPart(k) => after_part(alloc, k, token)?,
        Symbol::Vars(b, k) => on_vars(alloc, b, k, token)?,
        Symbol::MoreVars(b, k) => on_more_vars(alloc, b, k, token)?,
        Symbol::VarName(b, k) => on_var_name(alloc, b, k, token)?,
        Symbol::Ty(n, k) => on_type(alloc, n, k, token)?,
        Symbol::MoreTy(l, n, k) => on_more_type(alloc, l, n, k, type_depth, token)?,
        Symbol::AfterTy(k) => after_type(alloc, k, token)?,
        Symbol::AfterArg(k) => after_arg(alloc, k, token)?,
        Symbol::ConName => on_con_name(alloc, token)?,
        Symbol::WantColons => only(alloc, matches!(&token.word, Word::Colons)),
        Symbol::WantThen => only(alloc, matches!(&token.word, Word::Then)),
        Symbol::WantElse => only(alloc, matches!(&token.word, Word::Else)),
        Symbol::WantClose => only(alloc, matches!(&token.word, Word::Close)),
        Symbol::MakeName(..) => return Ok(None),
        Symbol::MakeNumber(..) => return Ok(None),
        Symbol::MakeApp => return Ok(None),
        Symbol::MakeInfix(..) => return Ok(None),
        Symbol::MakeNot(_) => return Ok(None),
        Symbol::MakeIf(_) => return Ok(None),
        Symbol::MakePair(_) => return Ok(None),
        Symbol::MakeTyped(_) => return Ok(None),
        Symbol::MakeAbs(..) => return Ok(None),
        Symbol::MakeTypedAbs(..) => return Ok(None),
        Symbol::Deepen => return Ok(None),
        Symbol::MakeTyVar(..) => return Ok(None),
        Symbol::MakeCon(..) => return Ok(None),
        Symbol::MakePost(..) => return Ok(None),
        Symbol::MakeTyInfix(..) => return Ok(None),
        Symbol::MakeArg => return Ok(None),
        Symbol::DeepenTy => return Ok(None),
    }))
}
