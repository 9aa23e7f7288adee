// What is compared of a candidate.
ghost use Rattle.std.specs.Prelude.{◌≤◌, nat_abs};
ghost use Rattle.common.specs.Array.{Sized};

// Its six weights, each times the width of its range, and its squared lengths for the six lowest and for the six highest inner products.
#[derive(Clone, Copy)]
pub struct Entry {
    pub widths: [i64; 6],
    pub lowest: i64,
    pub highest: i64,
    ghost widths_small: { Sized 429496729600000000 widths },
    ghost lowest_small: { nat_abs lowest ≤ 1288490188800000000 },
    ghost highest_small: { nat_abs highest ≤ 1288490188800000000 },
}
