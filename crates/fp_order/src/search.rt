//! The first order, found column by column.

ghost use Rattle.std.specs.Prelude.{◌≡◌, ◌+◌, ◌*◌, ◌<◌, ◌^◌, vec_len, length, None, IfOk, MatchOption};
ghost use Rattle.std.specs.Bool.{OnTrue, OnFalse};
ghost use Rattle.fp_order.specs.Orders.{IsBest, IsComplete, OrdersJoin, IsOver, IsDecided, IsDecidedAt, TellsDecided};
ghost use Rattle.fp_order.specs.Matrix.{entry_of, RowOf};
ghost use Rattle.fp_order.specs.Greedy.{IsLeft, IsMarked, Fits, IsNext, NoneFits};

use crate::{Entry, Items, Matrix, Order};
use std::alloc::{AllocError, Global};

impl Matrix {
    /// The entry of a column on a row.
    pub fn entry(&self, column: u32, row: u32) -> Entry
        requires column { column < self.now.columns }
        requires row { row < self.now.rows }
        ensures { result ≡ entry_of self.now column row }
    {
        self.entries.as_slice()[row as usize * self.columns as usize + column as usize]
    }
}

/// Whether the column has only Less and Leq on the rows left, and Less on one of them.
fn fits(m: &Matrix, decided: &[Option<u32>], column: u32) -> bool
    requires column { column < m.now.columns }
    requires rows { length decided.now ≡ m.now.rows }
    ensures yes { OnTrue result (Fits (entry_of m.now) (IsLeft decided.now) column) }
    ensures no { OnFalse result (Fits (entry_of m.now) (IsLeft decided.now) column → ⊥) }
{
    let mut some_less = false;
    for row in 0..m.rows {
        if decided[row as usize].is_none() {
            match m.entry(column, row) {
                Entry::Less => some_less = true,
                Entry::Leq => {}
                Entry::Unknown => return false,
            }
        }
    }
    some_less
}

/// The first column that fits the rows left.
fn next_column(m: &Matrix, decided: &[Option<u32>]) -> Option<u32>
    requires { length decided.now ≡ m.now.rows }
    ensures { MatchOption result
        (NoneFits (entry_of m.now) m.now.columns (IsLeft decided.now))
        (λ c. IsNext (entry_of m.now) m.now.columns (IsLeft decided.now) c) }
{
    for column in 0..m.columns {
        if fits(m, decided, column) {
            return Some(column);
        }
    }
    None
}

/// Gives the position to each row left on which the column has Less.
fn mark(m: &Matrix, decided: &mut Vec<Option<u32>>, column: u32, position: u32)
    requires column { column < m.now.columns }
    requires rows { vec_len decided.old ≡ m.now.rows }
    ensures { IsMarked (entry_of m.now) column position decided.old.items decided.new.items }
{
    for row in 0..m.rows {
        if decided[row as usize].is_none() && matches!(m.entry(column, row), Entry::Less) {
            decided[row as usize] = Some(position);
        }
    }
}

/// The first in the dictionary of the irredundant partial orders that decide the greatest set of rows.
pub fn best_order(alloc: Global, m: &Matrix) -> Result<Order, AllocError>
    ensures best { IfOk result (λ o. IsBest (entry_of m.now) m.now.columns (RowOf m.now) o.columns) }
    // Some order decides each row exactly where this one does.
    ensures complete { IfOk result (λ o. IsComplete (entry_of m.now) m.now.columns (RowOf m.now) o.columns) }
    ensures rows { IfOk result (λ o. length o.decided ≡ m.now.rows) }
    ensures decided { IfOk result (λ o. TellsDecided (entry_of m.now) m.now.rows o.columns o.decided) }
{
    let mut decided = vec![in alloc; None; m.rows as usize]?;
    let mut columns = Vec::new(alloc);
    while let Some(column) = next_column(m, decided.as_slice()) {
        mark(m, &mut decided, column, columns.len() as u32);
        columns.push(column)?;
    }
    Ok(Order {
        columns: Items::from_vec(columns),
        decided: Items::from_vec(decided),
    })
}

/// The position of the column that decides the row in the order of these columns.
pub fn decides(m: &Matrix, columns: &[u32], row: u32) -> Option<u32>
    requires row { row < m.now.rows }
    requires columns { IsOver m.now.columns columns.now }
    requires few { length columns.now < 2 ^ 32 }
    ensures { MatchOption result
        (IsDecided (entry_of m.now) columns.now row → ⊥)
        (λ i. IsDecidedAt (entry_of m.now) columns.now row i) }
{
    for (position, column) in columns.iter().enumerate() {
        match m.entry(*column, row) {
            Entry::Less => return Some(position as u32),
            Entry::Leq => {}
            Entry::Unknown => return None,
        }
    }
    None
}

/// Two partial orders, one after the other, are a partial order, which decides the rows that either decides.
pub fn orders_join(m: &Matrix)
    ensures { OrdersJoin (entry_of m.now) (RowOf m.now) }
{
    let _ = m;
}
