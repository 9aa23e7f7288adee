// The grid's numbers, and the sizes of what is counted in its steps.
ghost use Rattle.std.specs.Prelude.{◌<◌, ◌≤◌};

use common::{Bounded, BoundedMatrix};

// The diagonal numbers, those of a doubled mesh too.
#[derive(Clone, Copy)]
pub struct Grid {
    pub x: usize,
    pub y: usize,
    pub z: usize,
    pub ghost fits: { (0 < x) × (x ≤ 512) × (0 < y) × (y ≤ 512) × (0 < z) × (z ≤ 512) },
}

// That of a point or an image, in whole steps.
pub type Address = Bounded<10000000000000>;

// In half steps.
pub type Doubled = Bounded<20000000000001>;

pub type Rotation = BoundedMatrix<100000>;

pub type Rotations<'a> = common::Rotations<'a, 100000>;
