// Which of the 125 candidates of a point are nearest for certain, and which are beaten for certain, where the lattice is known only within ranges.
#![tactic(auto)]

mod candidates;
mod coordinates;
mod entry;
mod marks;
mod table;

ghost use Rattle.std.specs.Prelude.{T, ◌≡◌, ◌<◌, pos, length, get_or};
ghost use Rattle.std.specs.Int.Signed.{le_z};
ghost use Rattle.integer.specs.Checked.{fits64};
ghost use Rattle.common.specs.Tested.{Accepted};
ghost use Rattle.mark_candidates.specs.InnerProducts.{ordered};
ghost use Rattle.mark_candidates.specs.CertainMarks.{MarksSay};
ghost use Rattle.mark_candidates.specs.MarkCandidates.{ranges_of, grid_fits, within_limits, mark_tests, marks, marked, mark_candidates};

use bzsearch::Basis;
use common::Refusal;
use coordinates::Mesh;
use grgrid::GridPoint;
pub use table::Ranges;

fn ordered_at(r: Ranges, k: usize) -> bool
    requires { k < 6 }
    ensures { result ≡ le_z (get_or r.lowest k (pos 0)) (get_or r.highest k (pos 0)) }
{
    r.lowest[k] <= r.highest[k]
}

// No lowest lies above its highest.
fn is_ordered(r: Ranges) -> bool
    ensures { result ≡ ordered (ranges_of r.lowest r.highest) }
{
    (ordered_at(r, 0) && ordered_at(r, 1) && ordered_at(r, 2))
        && (ordered_at(r, 3) && ordered_at(r, 4) && ordered_at(r, 5))
}

fn grid_fits(d: [i64; 3], q: [[i64; 3]; 3], ps: [i64; 3]) -> bool
    ensures { result ≡ grid_fits d q ps }
{
    common::diagonal_fits(d) && common::matrix_within(q, 1000) && common::shift_fits(ps)
}

// What a call is given.
#[derive(Clone, Copy)]
struct Call {
    d: [i64; 3],
    q: [[i64; 3]; 3],
    ps: [i64; 3],
    r: Ranges,
    point: i64,
    // fits64 holds of every i64; a proof knows it of a parameter and not of a field.
    ghost in_range: { T (fits64 point) },
}

impl Call {
    fn within_limits(self) -> bool
        ensures { result ≡ within_limits self.d self.q self.ps self.r.lowest self.r.highest self.point }
    {
        if !grid_fits(self.d, self.q, self.ps) {
            return false;
        }
        let n = grgrid::points(grgrid::grid_of(self.d));
        let lowest = self.r.lowest;
        let highest = self.r.highest;
        common::all_within(&lowest, 1000000)
            && (common::all_within(&highest, 1000000) && common::point_fits(self.point, n as i64))
    }

    #[tactic(auto, using(crate::proofs::AcceptedCall::refused, crate::proofs::AcceptedCall::onward), unfolding(crate::specs::MarkCandidates::mark_tests))]
    fn tests(self, places: usize) -> Result<(), Refusal>
        ensures { result ≡ mark_tests self.d self.q self.ps self.r.lowest self.r.highest self.point places }
    {
        if places != 125 {
            return Err(Refusal::WrongLength);
        }
        if !self.within_limits() {
            return Err(Refusal::OutsideLimits);
        }
        if !is_ordered(self.r) {
            return Err(Refusal::InvertedRange);
        }
        let q = self.q;
        if !bzsearch::is_unimodular(Basis { m: q }) {
            return Err(Refusal::NotUnimodularQ);
        }
        Ok(())
    }

    fn mark(self, out: &mut [i64])
        requires { mark_tests self.d self.q self.ps self.r.lowest self.r.highest self.point (length out.old) ≡ Accepted }
        ensures { out.new ≡ marks self.d self.q self.ps self.r.lowest self.r.highest self.point }
    {
        let q = self.q;
        let point = GridPoint {
            p: self.point as usize,
            g: grgrid::grid_of(self.d),
        };
        let mesh = Mesh {
            point,
            ps: common::shift(self.ps),
            q: Basis { m: q },
        };
        let table = table::table(mesh.rests(), self.r);
        marks::mark_all(&table, out);
    }
}

// For each candidate 1 if it is nearest for certain, 2 if it is beaten for certain, 0 if neither.
pub fn mark_candidates(
    d: [i64; 3],
    q: [[i64; 3]; 3],
    ps: [i64; 3],
    r: Ranges,
    point: i64,
    marks: &mut [i64],
) -> Result<(), Refusal>
    ensures marks_after { marked result marks.new ≡ mark_candidates d q ps r.lowest r.highest point (length marks.old) }
    ensures marks_say { result ≡ Accepted → MarksSay d q ps r.lowest r.highest point marks.new }
{
    let call = Call { d, q, ps, r, point };
    let tested = call.tests(marks.len());
    match tested {
        Ok(()) => call.mark(marks),
        Err(_) => marks.fill(-1),
    }
    tested
}
