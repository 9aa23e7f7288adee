// The extended gcd.
ghost use Rattle.std.specs.Prelude.{◌≡◌, Some, ◌-◌, ◌<◌, ◌≤◌, nat_abs, ◌*ℤ◌, ◌-ℤ◌};
ghost use Rattle.integer.specs.Division.{div_euclid, rem_euclid};
ghost use Rattle.snf_steps.specs.Then.{provided};
ghost use Rattle.snf_steps.specs.Gcd.{less_fits, step, extended_gcd, counted_gcd, next};
ghost use Rattle.snf_steps.specs.Code.SmallWalk.{walked, small_remainder, small_remainders, small_coefficient, small_pair, small_coefficients, small, Room};

// Two remainders after each other: r = s·a + t·b and r1 = s1·a + t1·b.
#[derive(Clone, Copy)]
pub struct Euclid {
    pub r: i64,
    pub r1: i64,
    pub s: i64,
    pub s1: i64,
    pub t: i64,
    pub t1: i64,
}

// How the walk ends, and after how many divisions.
#[derive(Clone, Copy)]
pub struct Counted {
    pub last: Euclid,
    pub count: usize,
}

// x - q·y
fn less(x: i64, q: i64, y: i64) -> Option<i64>
    ensures { result ≡ provided (less_fits x q y) (x -ℤ q *ℤ y) }
{
    x.checked_sub(q.checked_mul(y)?)
}

// What the division of r by d leaves, of the quotient q: a second division takes longer. Modulo 2^64, as q·d can leave 64 bits.
fn rest(r: i64, d: i64, q: i64) -> i64
    requires { (0 < nat_abs d) × (q ≡ div_euclid r d) }
    ensures { result ≡ rem_euclid r d }
{
    r.wrapping_sub(q.wrapping_mul(d))
}

// One division.
fn step(e: Euclid) -> Option<Euclid>
    requires { 0 < nat_abs e.r1 }
    ensures { result ≡ step e }
{
    let q = e.r.checked_div_euclid(e.r1)?;
    Some(Euclid {
        r: e.r1,
        r1: rest(e.r, e.r1, q),
        s: e.s1,
        s1: less(e.s, q, e.s1)?,
        t: e.t1,
        t1: less(e.t, q, e.t1)?,
    })
}

fn small_remainder(z: i64) -> bool
    ensures { result ≡ small_remainder z }
{
    0 <= z && z < 0x4000_0000
}

fn small_remainders(x: i64, y: i64) -> bool
    ensures { result ≡ small_remainders x y }
{
    small_remainder(x) && small_remainder(y)
}

fn small_coefficient(z: i64) -> bool
    ensures { result ≡ small_coefficient z }
{
    -0x4000_0000 <= z && z < 0x4000_0000
}

fn small_pair(x: i64, y: i64) -> bool
    ensures { result ≡ small_pair x y }
{
    small_coefficient(x) && small_coefficient(y)
}

fn small_coefficients(e: Euclid) -> bool
    ensures { result ≡ small_coefficients e }
{
    small_pair(e.s, e.s1) && small_pair(e.t, e.t1)
}

// From such numbers on no division of the walk overflows.
fn small(e: Euclid) -> bool
    ensures { result ≡ small e }
{
    small_remainders(e.r, e.r1) && small_coefficients(e)
}

// One division, without tests. It takes less time in 32 bits, and tells the remainder too.
#[inline(always)]
fn step_small(e: Euclid) -> Euclid
    requires { Room e × (0 < nat_abs e.r1) }
    ensures { result ≡ next (div_euclid e.r e.r1) e }
{
    let r = e.r as u32;
    let r1 = e.r1 as u32;
    let q = (r / r1) as i64;
    Euclid {
        r: e.r1,
        r1: (r % r1) as i64,
        s: e.s1,
        s1: e.s - q * e.s1,
        t: e.t1,
        t1: e.t - q * e.t1,
    }
}

// The rest of a walk, after n divisions.
fn walk_small(start: Euclid, n: usize) -> Counted
    requires { Room start × (n ≤ 1000) }
    ensures { Some result ≡ walked (1000 - n) n start }
{
    let mut e = start;
    for i in n..1000 {
        if e.r1 == 0 {
            return Counted { last: e, count: i };
        }
        e = step_small(e);
    }
    Counted {
        last: e,
        count: 1000,
    }
}

// r = s·a + t·b, where r divides a and b.
pub fn counted_gcd(a: i64, b: i64) -> Option<Counted>
    ensures { result ≡ counted_gcd a b }
{
    let mut e = Euclid {
        r: a,
        r1: b,
        s: 1,
        s1: 0,
        t: 0,
        t1: 1,
    };
    for i in 0..1000 {
        if e.r1 == 0 {
            return Some(Counted { last: e, count: i });
        }
        if small(e) {
            return Some(walk_small(e, i));
        }
        e = step(e)?;
    }
    Some(Counted {
        last: e,
        count: 1000,
    })
}

pub fn extended_gcd(a: i64, b: i64) -> Option<Euclid>
    ensures { result ≡ extended_gcd a b }
{
    Some(counted_gcd(a, b)?.last)
}
