// What the entries of a matrix can be: i64, where each number on the way has to fit, and f64, where each is rounded.
ghost use Rattle.std.specs.Prelude.{◌≡◌, Bool, true, T, pos, refl};
ghost use Rattle.std.specs.Float.{nan};
ghost use Rattle.integer.specs.Checked.{fits64};
ghost use Rattle.integer.proofs.Fits.{fits-of};
ghost use Rattle.common.specs.Matrix.{Ops, integers};
ghost use Rattle.common.specs.FloatMatrix.{floats};

use std::ops::{Add, Mul, Sub};

pub trait Entry: Copy + Add<Output = Self> + Sub<Output = Self> + Mul<Output = Self> {
    ghost ops: { Ops Self };

    // What may be a sum, a difference or a product.
    ghost fits: { Self → Bool };

    // What specs/ read at a place that an array hasn't.
    ghost none: { Self };

    ghost can_add_law: { (a b : Self) → T (fits (ops.plus a b)) → Self.can_add a b };

    ghost add_law: { (a b r : Self) → Self.add_gives a b r → r ≡ ops.plus a b };

    ghost can_sub_law: { (a b : Self) → T (fits (ops.minus a b)) → Self.can_sub a b };

    ghost sub_law: { (a b r : Self) → Self.sub_gives a b r → r ≡ ops.minus a b };

    ghost can_mul_law: { (a b : Self) → T (fits (ops.times a b)) → Self.can_mul a b };

    ghost mul_law: { (a b r : Self) → Self.mul_gives a b r → r ≡ ops.times a b };
}

impl Entry for i64 {
    ghost ops = { integers };

    ghost fits = { fits64 };

    ghost none = { pos 0 };

    ghost can_add_law = { λ a b. fits-of refl };

    ghost add_law = { λ a b r h. h };

    ghost can_sub_law = { λ a b. fits-of refl };

    ghost sub_law = { λ a b r h. h };

    ghost can_mul_law = { λ a b. fits-of refl };

    ghost mul_law = { λ a b r h. h };
}

impl Entry for f64 {
    ghost ops = { floats };

    ghost fits = { λ _. true };

    ghost none = { nan };

    ghost can_add_law = { λ a b h. tt };

    ghost add_law = { λ a b r h. h };

    ghost can_sub_law = { λ a b h. tt };

    ghost sub_law = { λ a b r h. h };

    ghost can_mul_law = { λ a b h. tt };

    ghost mul_law = { λ a b r h. h };
}
