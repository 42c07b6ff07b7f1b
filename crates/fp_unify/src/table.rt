//! What is known of numbered types: a table with a cell for each.

ghost use Rattle.std.specs.Prelude.{◌≡◌, ℕ, ◌≤◌, ◌<◌, length};
ghost use Rattle.fp_term.specs.Types.{Typ};
ghost use Rattle.fp_unify.specs.Cells.{cell, Fits, AreFine, IsRoot};

use fp_term::{Items, Name};

/// What is known of one type: nothing, that it is an earlier one, or its form.
#[derive(Drop)]
pub enum Shape {
    Open,
    Link(u32),
    Var(Name),
    Con { name: Name, args: Items<u32> },
}

/// The type that stands for this one and that is no earlier one.
pub fn root(cells: &[Shape], at: u32) -> u32
    requires fine { AreFine cells.now }
    requires inside { at < length cells.now }
    ensures root { IsRoot (cell cells.now result) }
    ensures low { result ≤ at }
    ensures same { (v : ℕ → Typ) → Fits v cells.now → v at ≡ v result }
{
    let mut current = at;
    while let Shape::Link(next) = &cells[current as usize] {
        current = *next;
    }
    current
}
