// Of the marks.
ghost use Rattle.std.specs.Prelude.{◌≡◌, length};
ghost use Rattle.answers.specs.Marks.{six_of, mark_lengths};

use mark_candidates::Ranges;

pub fn mark_lengths(d: usize, q: usize, ps: usize, lowest: usize, highest: usize) -> bool
    ensures { result ≡ mark_lengths d q ps lowest highest }
{
    (d == 3 && q == 9 && ps == 3) && lowest == 6 && highest == 6
}

fn six_at(l: &[i64]) -> [i64; 6]
    requires { length l.now ≡ 6 }
    ensures { result ≡ six_of l.now }
{
    [l[0], l[1], l[2], l[3], l[4], l[5]]
}

pub fn ranges_at(lowest: &[i64], highest: &[i64]) -> Ranges
    requires { (length lowest.now ≡ 6) × (length highest.now ≡ 6) }
    ensures lowest_value { result.lowest ≡ six_of lowest.now }
    ensures highest_value { result.highest ≡ six_of highest.now }
{
    let lowest = six_at(lowest);
    let highest = six_at(highest);
    Ranges { lowest, highest }
}
