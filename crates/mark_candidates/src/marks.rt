// The marks: each candidate against all 125, by the table of the point.
ghost use Rattle.std.specs.Prelude.{◌≡◌, ◌≤◌, map, pos, nat_abs, ◌-ℤ◌, length};
ghost use Rattle.bzsearch.specs.Search.{max_z};
ghost use Rattle.mark_candidates.specs.Code.Table.{entry_view, rises};
ghost use Rattle.mark_candidates.specs.Code.Marks.{against, mark_of};

use crate::entry::Entry;

// How the squared length of a candidate compares with that of another one, for all inner products in the ranges.
#[derive(Clone, Copy, Debug, PartialEq, Eq)]
pub enum Against {
    Longer,
    NeverLonger,
    Open,
}

// How much the difference of two squared lengths grows as an inner product goes from its lowest to its highest; 0 if it falls.
fn rise(a: i64, b: i64) -> i64
    requires { (nat_abs a ≤ 429496729600000000) × (nat_abs b ≤ 429496729600000000) }
    ensures value { result ≡ max_z (pos 0) (a -ℤ b) }
    ensures small { nat_abs result ≤ 858993459200000000 }
{
    (a - b).max(0)
}

fn rises(a: Entry, o: Entry) -> i64
    ensures value { result ≡ rises (entry_view a) (entry_view o) }
    ensures small { nat_abs result ≤ 5153960755200000000 }
{
    let mut sum = 0;
    for (k, width) in a.widths.iter().enumerate() {
        sum += rise(*width, o.widths[k]);
    }
    sum
}

// Two squared lengths differ at most by the difference for the lowest inner products and all that rises, and at least by the difference for the highest
// ones less what rises.
fn compare(a: Entry, o: Entry) -> Against
    ensures { result ≡ against (entry_view a) (entry_view o) }
{
    let up = rises(a, o);
    let least = a.highest - o.highest - up;
    let most = a.lowest - o.lowest + up;
    if 0 < least {
        return Against::Longer;
    }
    if most <= 0 {
        return Against::NeverLonger;
    }
    Against::Open
}

// 1, 2 or 0 for candidate a. No candidate is both nearest and beaten, so the first that beats it ends the walk.
fn mark(t: &[Entry], a: Entry) -> i64
    ensures { result ≡ mark_of (map entry_view t.now) (entry_view a) }
{
    let mut nearest = true;
    for o in t {
        match compare(a, *o) {
            Against::Longer => return 2,
            Against::NeverLonger => {}
            Against::Open => nearest = false,
        }
    }
    if nearest { 1 } else { 0 }
}

pub fn mark_all(t: &[Entry], out: &mut [i64])
    requires { length out.old ≡ length t.now }
    ensures { out.new ≡ map (mark_of (map entry_view t.now)) (map entry_view t.now) }
{
    for (i, a) in t.iter().enumerate() {
        out[i] = mark(t, *a);
    }
}
