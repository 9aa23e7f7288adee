// 3 by 3 matrices and vectors of f64, by value.
#![tactic(auto)]

ghost use Rattle.std.specs.Prelude.{◌≡◌};
ghost use Rattle.common.specs.Array.{rows};
ghost use Rattle.common.specs.FloatMatrix.{row_d, to_floats, matmul_d, matvec_id, det_d};

pub fn row_to_d(a: [i64; 3]) -> [f64; 3]
    ensures { result ≡ row_d a }
{
    a.map(float::to_f64)
}

// Row by row a matvec_id takes 14 ns, with `m.map(row_to_d)` 23.
pub fn mat_i_to_d(m: [[i64; 3]; 3]) -> [[f64; 3]; 3]
    ensures { result ≡ rows (to_floats m) }
{
    let [x, y, z] = m;
    [row_to_d(x), row_to_d(y), row_to_d(z)]
}

pub fn matvec_id(a: [[i64; 3]; 3], b: [f64; 3]) -> [f64; 3]
    ensures { result ≡ matvec_id a b }
{
    common::apply(mat_i_to_d(a), b)
}

// The Rust's names for products and determinants at f64.
pub fn matmul_d(a: [[f64; 3]; 3], b: [[f64; 3]; 3]) -> [[f64; 3]; 3]
    ensures { result ≡ matmul_d a b }
{
    common::matmul(a, b)
}

pub fn det_d(m: [[f64; 3]; 3]) -> f64
    ensures { result ≡ det_d m }
{
    common::det(m)
}
