// Whether the record of a table is of the grid that a call is given.
ghost use Rattle.std.specs.Prelude.{◌≡◌};
ghost use Rattle.integer.specs.Same.{same};
ghost use Rattle.common.specs.Matrix.{same_vector};
ghost use Rattle.common.specs.Array.{vector_of};
ghost use Rattle.bztable.specs.Agreement.{agrees_grid, agrees, layout_where};

use bzgrid::{GridType, TableRecord};
use common::Refusal;

fn same(a: i64, b: i64) -> bool
    ensures { result ≡ same a b }
{
    a == b
}

fn same_vector(a: [i64; 3], b: [i64; 3]) -> bool
    ensures { result ≡ same_vector (vector_of a) (vector_of b) }
{
    same(a[0], b[0]) && same(a[1], b[1]) && same(a[2], b[2])
}

// By the diagonal and the type.
pub fn agrees_grid(table: TableRecord, d: [i64; 3], bz_grid_type: i64) -> bool
    ensures { result ≡ agrees_grid table d bz_grid_type }
{
    same_vector(table.d, d) && same(table.bz_grid_type, bz_grid_type)
}

// By the shift too.
pub fn agrees(table: TableRecord, d: [i64; 3], ps: [i64; 3], bz_grid_type: i64) -> bool
    ensures { result ≡ agrees table d ps bz_grid_type }
{
    agrees_grid(table, d, bz_grid_type) && same_vector(table.ps, ps)
}

// The layout that the type names, where the record agrees.
pub fn layout_where(agreed: bool, bz_grid_type: i64) -> Result<GridType, Refusal>
    ensures { result ≡ layout_where agreed bz_grid_type }
{
    let t = GridType::try_from(bz_grid_type)?;
    if !agreed {
        return Err(Refusal::OtherGrid);
    }
    Ok(t)
}
