//! The nodes of a type, counted up to a room.

ghost use Rattle.std.specs.Prelude.{◌≡◌, ℕ, ◌<◌, ◌≤◌, length, MatchOption};
ghost use Rattle.fp_term.specs.Types.{Typ};
ghost use Rattle.fp_unify.specs.Facts.{AllBelow, types_at};
ghost use Rattle.fp_unify.specs.Cells.{AreFine};
ghost use Rattle.fp_unify.specs.Nodes.{type_nodes, types_nodes, Single, Leaves};

use crate::table::{Shape, root};

/// What is left of the room after the nodes of the type, if they fit in.
#[cycle(count)]
pub fn nodes_within(cells: &[Shape], at: u32, room: u32) -> Option<u32>
    requires fine { AreFine cells.now }
    requires inside { at < length cells.now }
    ensures less { MatchOption result (Unit {0}) (λ left. left ≤ room) }
    ensures nodes { (w : ℕ → Typ) → Single w cells.now → Leaves (type_nodes (w at)) room result }
{
    if room == 0 {
        return None;
    }
    let at = root(cells, at);
    match &cells[at as usize] {
        Shape::Con { args, .. } => all_within(cells, args.as_slice(), room - 1),
        _ => Some(room - 1),
    }
}

#[cycle(count)]
fn all_within(cells: &[Shape], all: &[u32], room: u32) -> Option<u32>
    requires fine { AreFine cells.now }
    requires inside { AllBelow (length cells.now) all.now }
    ensures less { MatchOption result (Unit {0}) (λ left. left ≤ room) }
    ensures nodes { (w : ℕ → Typ) → Single w cells.now → Leaves (types_nodes (types_at w all.now)) room result }
{
    let mut left = room;
    for at in all {
        match nodes_within(cells, *at, left) {
            Some(rest) => left = rest,
            None => return None,
        }
    }
    Some(left)
}
