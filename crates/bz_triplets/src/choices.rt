// The walk over the choices of a class: one image each of q0, q1 and q2.
ghost use Rattle.std.specs.Prelude.{◌≡◌, false, [], ◌<◌};
ghost use Rattle.common.specs.Array.{vector_of, items, Sized};
ghost use Rattle.bzsearch.specs.SearchView.{float_nine};
ghost use Rattle.bztable.specs.Reading.{got};
ghost use Rattle.bz_triplets.specs.Choosing.{start, nested};
ghost use Rattle.bz_triplets.specs.BzTriplets.{squared_distance, sum_of, is_zero, tried_sum, try_at};
ghost use Rattle.bztable.specs.Code.PlacesView.{places_in};
ghost use Rattle.bz_triplets.specs.Code.TripletsView.{state_of, state_read, walk_by, shorter, is_closed, choice_view};

use bztable::places::{Place, Places};
use bztable::reading::Table;
use bztable::{places, reading};
use common::{Bounded, Refusal};
use grgrid::Address;

// What one step tells of its triplet: the sum closed, or the squared length that is left over, or there was no choice.
#[derive(Clone, Copy, Debug, PartialEq)]
pub enum Step {
    Closed,
    Left(f64),
    Empty,
}

// One image each of q0, q1 and q2.
#[derive(Clone, Copy)]
pub struct Choice {
    pub x: Place,
    pub y: Place,
    pub z: Place,
}

#[derive(Clone, Copy)]
pub struct Triplet {
    pub step: Step,
    pub choice: Choice,
    // Of the addresses of the choice.
    pub sum: Sum,
}

// Of three addresses.
pub type Sum = Bounded<30000000000000>;

// How lengths are measured: lattice · Q · diag(1 / d) by rows, and the tolerance.
#[derive(Clone, Copy)]
pub struct Measure {
    pub lqd: [f64; 9],
    pub tolerance: f64,
}

fn squared_distance(g: Sum, lqd: [f64; 9]) -> f64
    ensures { result ≡ squared_distance (float_nine lqd) (vector_of g.v) }
{
    let v = [g.v[0] as f64, g.v[1] as f64, g.v[2] as f64];
    bzsearch::length_squared(lqd, v)
}

#[inline(always)]
fn add3(a: Address, b: Address, c: Address) -> Sum
    ensures { result.v ≡ items (sum_of (vector_of a.v) (vector_of b.v) (vector_of c.v)) }
{
    Sum {
        v: [
            a.v[0] + b.v[0] + c.v[0],
            a.v[1] + b.v[1] + c.v[1],
            a.v[2] + b.v[2] + c.v[2],
        ],
    }
}

pub fn is_zero(g: [i64; 3]) -> bool
    ensures { result ≡ is_zero (vector_of g) }
{
    g == [0, 0, 0]
}

// Whether a sum of squared length d2 takes the place of what was found.
fn is_shorter(found: Step, d2: f64, tolerance: f64) -> bool
    ensures { result ≡ shorter found d2 tolerance }
{
    match found {
        Step::Left(least) => d2 < least - tolerance,
        Step::Empty => true,
        Step::Closed => false,
    }
}

// A choice whose sum is g.
#[inline(always)]
fn with_sum(t: Triplet, choice: Choice, g: Sum, m: Measure) -> Triplet
    requires { is_closed t.step ≡ false }
    ensures { state_of result ≡ tried_sum (walk_by m []) (state_of t) (choice_view choice) (vector_of g.v) }
{
    if is_zero(g.v) {
        return Triplet {
            step: Step::Closed,
            choice,
            sum: g,
        };
    }
    let d2 = squared_distance(g, m.lqd);
    if is_shorter(t.step, d2, m.tolerance) {
        return Triplet {
            step: Step::Left(d2),
            choice,
            sum: g,
        };
    }
    t
}

#[inline(always)]
fn try_choice(table: &Table, t: Triplet, choice: Choice, m: Measure) -> Result<Triplet, Refusal>
    requires { is_closed t.step ≡ false }
    ensures { state_read result ≡ try_at (walk_by m table.now.addresses.now) (got (state_of t)) (choice_view choice) }
{
    let a = reading::address_at(table.addresses, choice.x.at)?;
    let b = reading::address_at(table.addresses, choice.y.at)?;
    let c = reading::address_at(table.addresses, choice.z.at)?;
    Ok(with_sum(t, choice, add3(a, b, c), m))
}

// A zero sum ends the walk.
fn is_closed(s: Step) -> bool
    ensures { result ≡ is_closed s }
{
    s == Step::Closed
}

// Images of q0, q1 and q2 in three nested walks. Where one of the three has none the walks would turn for nothing.
#[inline(always)]
pub fn search_choices(
    table: &Table,
    q0: Places,
    q1: Places,
    q2: Places,
    m: Measure,
) -> Result<Triplet, Refusal>
    ensures { state_read result
        ≡ nested (try_at (walk_by m table.now.addresses.now)) (got start)
        (record { x = places_in q0; y = places_in q1; z = places_in q2 }) }
{
    let none = Place { at: 0 };
    let mut found = Triplet {
        step: Step::Empty,
        choice: Choice {
            x: none,
            y: none,
            z: none,
        },
        sum: Sum { v: [0, 0, 0] },
    };
    if q0.count == 0 || q1.count == 0 || q2.count == 0 {
        return Ok(found);
    }
    // Three loops, as in bzsearch's least_box.
    for i in 0..q0.count {
        let x = places::place_in(q0, i);
        for j in 0..q1.count {
            let y = places::place_in(q1, j);
            for k in 0..q2.count {
                let choice = Choice {
                    x,
                    y,
                    z: places::place_in(q2, k),
                };
                found = try_choice(table, found, choice, m)?;
                if is_closed(found.step) {
                    return Ok(found);
                }
            }
        }
    }
    Ok(found)
}
