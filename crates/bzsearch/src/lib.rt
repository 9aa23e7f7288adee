// The search for the images of a grid point: the lattice, the candidates, the least length.
#![tactic(auto)]

pub mod candidates;
mod lattice;
mod search;
mod types;

pub use lattice::{bz_tolerance, is_singular, lattice_fits};
pub use search::{is_unimodular, length_squared};
pub use types::{Axes, Basis, Boxes, BzSearch, Candidate, Numbers, Point, Range, Span, Split};
