// Image tables as they are read: the rotation of an image, neighbours.
#![tactic(auto)]

pub mod agreement;
mod burst;
mod neighbours;
mod place;
pub mod places;
pub mod reading;
mod rotate;

pub use burst::rotate_bz_grid_indices;
pub use neighbours::neighboring_grid_points_many;
pub use rotate::{Rotated, rotate_bz_grid_index};
