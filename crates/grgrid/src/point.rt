// A point of a grid.
ghost use Rattle.std.specs.Prelude.{◌<◌};
ghost use Rattle.grgrid.specs.Grid.{size};
ghost use Rattle.grgrid.specs.Sides.{sides};

use crate::grid::Grid;

// A point by its number, which is below the number of points.
#[derive(Clone, Copy)]
pub struct GridPoint {
    pub p: usize,
    pub g: Grid,
    pub ghost inside: { p < size (sides g) },
}
