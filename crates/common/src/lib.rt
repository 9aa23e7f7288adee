// What the modules share: limits, refusals, vectors and matrices.
#![tactic(auto)]

mod algebra;
mod array;
mod bounded;
mod entry;
mod limits;

ghost use Rattle.std.specs.Prelude.{◌≡◌, ◌<◌, pos};
ghost use Rattle.common.specs.Refusal.{number_of};

pub use algebra::{apply, cross, det, dot, matmul, matvec_ii, minors};
pub use array::{flat, matrix_at, nested, row_at, transpose};
pub use bounded::{Bounded, BoundedMatrix, Rotations, Shift, shift};
pub use entry::Entry;
pub use limits::{
    all_within, diagonal_fits, is_product, is_thrice, matrix_within, point_fits, rotations_fit,
    row_within, shift_fits, whole_matrices, within,
};

// Why a call gives no result. The Rust's own errors have the Rust's names.
#[derive(Clone, Copy, Debug, PartialEq, Eq)]
pub enum Refusal {
    Singular = 1,
    NotConverged = 2,
    OutsideLimits = 3,
    Overflow = 4,
    SingularQ = 5,
    SymmetryBroken = 6,
    TooManyRotations = 7,
    TooManyForInversion = 8,
    BadGridType = 9,
    NotUnimodularQ = 10,
    SingularReciprocalLattice = 11,
    SearchFailed = 12,
    WrongLength = 13,
    OutsideTable = 14,
    BadHeader = 15,
    OtherSizes = 16,
    OtherGrid = 17,
    NotGroup = 18,
    CouldNotStand = 19,
    InvertedRange = 20,
}

impl Refusal {
    pub fn number(self) -> u64
        ensures value { result ≡ number_of self }
        ensures upper_bound { result < 21 }
    {
        self as u64
    }

    // As an export answers it.
    pub fn answer(self) -> i64
        ensures { result ≡ pos (number_of self) }
    {
        self.number() as i64
    }
}
