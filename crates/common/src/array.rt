// 3 by 3 matrices and vectors by value: three rows, or nine numbers by rows.
ghost use Rattle.std.specs.Prelude.{◌≡◌, ◌+◌, ◌*◌, ◌≤◌, [], length};
ghost use Rattle.common.specs.Matrix.{entries, transpose};
ghost use Rattle.common.specs.Array.{rows, row_at, matrix_at, matrix_or, matrix_at_or};

use crate::entry::Entry;

// Three numbers of a lent list. Of i64 alone, as `matrix_at` is: a generic callee would ask of every caller that sizes fit.
pub fn row_at(list: &[i64], at: usize) -> [i64; 3]
    requires { at + 3 ≤ length list.now }
    ensures { result ≡ row_at list.now at }
{
    [list[at], list[at + 1], list[at + 2]]
}

// Matrix n of a lent list.
pub fn matrix_at(list: &[i64], n: usize) -> [[i64; 3]; 3]
    requires { n * 9 + 9 ≤ length list.now }
    ensures { result ≡ rows (matrix_at list.now n) }
{
    let at = n * 9;
    [row_at(list, at), row_at(list, at + 3), row_at(list, at + 6)]
}

// A record holds a matrix flat, by rows.
pub fn flat<N: Entry>(m: [[N; 3]; 3]) -> [N; 9]
    ensures { result ≡ entries (matrix_or N.none m) [] }
{
    let [[a, b, c], [d, e, f], [g, h, i]] = m;
    [a, b, c, d, e, f, g, h, i]
}

// And back.
pub fn nested<N: Entry>(m: [N; 9]) -> [[N; 3]; 3]
    ensures { result ≡ rows (matrix_at_or N.none m 0) }
{
    let [a, b, c, d, e, f, g, h, i] = m;
    [[a, b, c], [d, e, f], [g, h, i]]
}

pub fn transpose<N: Entry>(m: [[N; 3]; 3]) -> [[N; 3]; 3]
    ensures { result ≡ rows (transpose (matrix_or N.none m)) }
{
    let [[a, b, c], [d, e, f], [g, h, i]] = m;
    [[a, d, g], [b, e, h], [c, f, i]]
}
