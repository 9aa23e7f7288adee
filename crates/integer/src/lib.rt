// Rust's operations on i64 with the contracts that the modules cite: whether the exact number fits, the number, or why there is none.
#![tactic(auto)]

ghost use Rattle.std.specs.Prelude.{◌≡◌, ℤ, neg_ℤ, ◌+ℤ◌, ◌-ℤ◌, ◌*ℤ◌, Err, ok_or, cond};
ghost use Rattle.std.specs.Int.Signed.{quot_z, rem_z};
ghost use Rattle.integer.specs.Checked.{fits64, is_zero, checked, divided};
ghost use Rattle.integer.specs.declared.ArithmeticError.TheVariants.{Overflow, ZeroDivisor};
ghost use Rattle.integer.specs.Division.{div_euclid, rem_euclid, Divisible};

#[derive(Clone, Copy, Debug, PartialEq, Eq)]
pub enum ArithmeticError {
    Overflow,
    ZeroDivisor,
}

pub fn add_fits(a: i64, b: i64) -> bool
    ensures { result ≡ fits64 (a +ℤ b) }
{
    a.checked_add(b).is_some()
}

pub fn checked_add(a: i64, b: i64) -> Result<i64, ArithmeticError>
    ensures { result ≡ checked (a +ℤ b) }
{
    a.checked_add(b).ok_or(ArithmeticError::Overflow)
}

pub fn sub_fits(a: i64, b: i64) -> bool
    ensures { result ≡ fits64 (a -ℤ b) }
{
    a.checked_sub(b).is_some()
}

pub fn checked_sub(a: i64, b: i64) -> Result<i64, ArithmeticError>
    ensures { result ≡ checked (a -ℤ b) }
{
    a.checked_sub(b).ok_or(ArithmeticError::Overflow)
}

pub fn checked_neg(a: i64) -> Result<i64, ArithmeticError>
    ensures { result ≡ checked (neg_ℤ a) }
{
    a.checked_neg().ok_or(ArithmeticError::Overflow)
}

pub fn mul_fits(a: i64, b: i64) -> bool
    ensures { result ≡ fits64 (a *ℤ b) }
{
    a.checked_mul(b).is_some()
}

pub fn checked_mul(a: i64, b: i64) -> Result<i64, ArithmeticError>
    ensures { result ≡ checked (a *ℤ b) }
{
    a.checked_mul(b).ok_or(ArithmeticError::Overflow)
}

// A quotient or a remainder by d, or why there is none.
fn divided(d: i64, quotient: Option<i64>) -> Result<i64, ArithmeticError>
    ensures { result ≡ cond (is_zero d) (Err ZeroDivisor) (ok_or quotient Overflow) }
{
    if d == 0 {
        return Err(ArithmeticError::ZeroDivisor);
    }
    quotient.ok_or(ArithmeticError::Overflow)
}

pub fn checked_div(a: i64, d: i64) -> Result<i64, ArithmeticError>
    ensures { result ≡ divided d (quot_z a d) (quot_z a d) }
{
    divided(d, a.checked_div(d))
}

pub fn checked_rem(a: i64, d: i64) -> Result<i64, ArithmeticError>
    ensures { result ≡ divided d (quot_z a d) (rem_z a d) }
{
    divided(d, a.checked_rem(d))
}

#[inline(always)]
pub fn div_euclid(a: i64, d: i64) -> i64
    requires { Divisible a d }
    ensures { result ≡ div_euclid a d }
{
    a.div_euclid(d)
}

#[inline(always)]
pub fn rem_euclid(a: i64, d: i64) -> i64
    requires { Divisible a d }
    ensures { result ≡ rem_euclid a d }
{
    a.rem_euclid(d)
}

pub fn checked_div_euclid(a: i64, d: i64) -> Result<i64, ArithmeticError>
    ensures { result ≡ divided d (div_euclid a d) (div_euclid a d) }
{
    divided(d, a.checked_div_euclid(d))
}

pub fn checked_rem_euclid(a: i64, d: i64) -> Result<i64, ArithmeticError>
    ensures { result ≡ divided d (div_euclid a d) (rem_euclid a d) }
{
    divided(d, a.checked_rem_euclid(d))
}
