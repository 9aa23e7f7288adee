// Numbers of a known size: a vector, a matrix, a list of rotations.
ghost use Rattle.std.specs.Prelude.{◌≡◌, ◌/◌, ◌<◌, T, length};
ghost use Rattle.common.specs.Array.{rows, matrix_at, matrix_of, Sized};
ghost use Rattle.common.specs.Limits.{all_within, matrix_within, shift_fits};

// A vector with entries of size at most K.
#[derive(Clone, Copy)]
pub struct Bounded<const K: u64> {
    pub v: [i64; 3],
    pub ghost sized: { Sized K v },
}

// The shift of a grid, in halves of its steps.
pub type Shift = Bounded<1>;

pub fn shift(ps: [i64; 3]) -> Shift
    requires { T (shift_fits ps) }
    ensures { result.v ≡ ps }
{
    Bounded { v: ps }
}

// A matrix with entries of size at most K.
#[derive(Clone, Copy)]
pub struct BoundedMatrix<const K: u64> {
    pub m: [[i64; 3]; 3],
    pub ghost within: { T (matrix_within K (matrix_of m)) },
}

// Rotations with entries of size at most K, nine numbers each by rows; a part of one at the end does not count.
#[derive(Clone, Copy)]
pub struct Rotations<'a, const K: u64> {
    pub list: &'a [i64],
    pub ghost within: { T (all_within K list.now) },
}

impl<'a, const K: u64> Rotations<'a, K> {
    pub fn count(&self) -> usize
        ensures { result ≡ length self.now.list.now / 9 }
    {
        self.list.len() / 9
    }

    pub fn at(&self, n: usize) -> BoundedMatrix<K>
        requires { n < length self.now.list.now / 9 }
        ensures { result.m ≡ rows (matrix_at self.now.list.now n) }
    {
        BoundedMatrix {
            m: crate::matrix_at(self.list, n),
        }
    }
}
