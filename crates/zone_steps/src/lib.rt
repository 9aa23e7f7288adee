// The steps of the chain: rotations in the basis of a grid, its images, classes and triplets.
#![tactic(auto)]

mod basis;
mod grid;
mod tables;

pub use grid::{Input, wipe_lists};
pub use tables::list_in_basis;
