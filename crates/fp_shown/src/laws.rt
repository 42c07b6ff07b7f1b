//! Laws of what is shown.

ghost use Rattle.std.specs.Prelude.{length};
ghost use Rattle.fp_order.specs.Grid.{cells_of, columns_of, IsGrid};
ghost use Rattle.fp_shown.specs.Fillings.{ShownStays};
ghost use Rattle.fp_shown.specs.Effect.{RowsLeftDecide, ShownIsFree, ClosedHasOneResult};
ghost use Rattle.fp_shown.specs.Need.{NeedIsOne, NeedShowsRest};
ghost use Rattle.fp_shown.specs.Shown.{number_on};

use fp_order::Grid;

/// What is shown stays shown when more cells are known.
pub fn shown_stays(g: &Grid)
    requires { IsGrid g.now }
    ensures { ShownStays (number_on g.now) (length (columns_of g.now.functions)) (length g.now.rows)
        (length (cells_of g.now)) }
{
    let _ = g;
}

/// Two fillings that agree on the cells of the rows left by the forced columns have one result: the same ranks,
/// one deciding position for each row, and the same cells on the rows that the whole search leaves.
pub fn rows_left_decide(g: &Grid)
    requires { IsGrid g.now }
    ensures { RowsLeftDecide g.now }
{
    let _ = g;
}

/// A shown cell is free of effect: two fillings that agree off it have one result.
pub fn shown_free(g: &Grid)
    requires { IsGrid g.now }
    ensures { ShownIsFree g.now }
{
    let _ = g;
}

/// Where each cell is known or shown, all fillings have one result.
pub fn closed_has_one_result(g: &Grid)
    requires { IsGrid g.now }
    ensures { ClosedHasOneResult g.now }
{
    let _ = g;
}

/// Of each full matrix one list of cells is needed.
pub fn need_is_one(g: &Grid)
    requires { IsGrid g.now }
    ensures { NeedIsOne g.now }
{
    let _ = g;
}

/// The entries of the cells that are needed show all other cells.
pub fn need_shows_rest(g: &Grid)
    ensures { NeedShowsRest g.now }
{
    let _ = g;
}
