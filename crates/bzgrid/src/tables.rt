// Image tables: a walk over the points that writes the images of each, for both layouts.
ghost use Rattle.std.specs.Prelude.{◌≡◌, [], ◌∷◌, ◌+◌, ◌/◌, ◌<◌, ◌≤◌, T, pos, length, Option, cond};
ghost use Rattle.common.specs.Array.{vector_of, items, Sized};
ghost use Rattle.grgrid.specs.Grid.{size};
ghost use Rattle.grgrid.specs.Sides.{sides};
ghost use Rattle.bzsearch.specs.Search.{chosen, box};
ghost use Rattle.bzgrid.specs.Table.{image_of, images_at};
ghost use Rattle.bzgrid.specs.BzGridAddresses.{all_found};
ghost use Rattle.bzgrid.specs.Code.Writing.{put_at, tables, store, stored, keep, kept, if_sparse, placed_flat};
ghost use Rattle.bzgrid.specs.Code.Walked.{walk_of, images_in, WrittenTo};
ghost use Rattle.bzsearch.specs.SearchView.{search_view, axes_view, point_split};

use bzsearch::{Axes, BzSearch, Candidate, Point, candidates};
use grgrid::Grid;

// The place of the next image, and that of the one after it.
#[derive(Clone, Copy)]
pub struct Cursor {
    pub at: usize,
    pub next: usize,
    ghost ordered: { at ≤ next },
}

// The at-th three places of out, where there is room.
fn put_address(out: &mut [i64], at: usize, a: [i64; 3])
    ensures { out.new ≡ put_at 3 out.old at (items (vector_of a)) }
{
    if at < out.len() / 3 {
        let i = 3 * at;
        out[i..i + 3].copy_from_slice(&a);
    }
}

// The at-th place of out, where there is one.
pub fn put_count(out: &mut [i64], at: usize, n: usize)
    requires { n < 4611686018427387904 }
    ensures { out.new ≡ put_at 1 out.old at (pos n ∷ []) }
{
    if at < out.len() {
        out[at] = n as i64;
    }
}

// Where the first image of point i goes, if k is the place after all images so far that stand at no point's own place.
pub fn start(sparse: bool, i: usize, k: usize) -> Cursor
    requires { (i ≤ k) × (k < 4611686018427387904) }
    ensures at_value { result.at ≡ cond sparse i k }
    ensures next_value { result.next ≡ cond sparse k (k + 1) }
    ensures upper_bound { result.next ≤ k + 1 }
{
    if sparse {
        Cursor { at: i, next: k }
    } else {
        Cursor { at: k, next: k + 1 }
    }
}

// n in a sparse table, else 0.
pub fn if_sparse(sparse: bool, n: usize) -> usize
    ensures value { result ≡ if_sparse sparse n }
    ensures upper_bound { result ≤ n }
{
    if sparse { n } else { 0 }
}

// Room is asked for at each step and is no ghost field of Cursor: a step leaves room for one image less than it was given.
pub fn store(i: usize, a: [i64; 3], addresses: &mut [i64], grg: &mut [i64], c: Cursor) -> Cursor
    requires { (i < 65536) × (c.next < 4611686018427387904) }
    ensures { tables addresses.new grg.new result.at result.next ≡ store (tables addresses.old grg.old c.at c.next) (image_of i (vector_of a)) }
{
    put_address(addresses, c.at, a);
    put_count(grg, c.at, i);
    Cursor {
        at: c.next,
        next: c.next + 1,
    }
}

// A point, and the bound under which its candidates are kept as images.
#[derive(Clone, Copy)]
pub struct Keeping {
    pub bz: BzSearch,
    pub p: Point,
    pub bound: f64,
}

impl Keeping {
    fn keep(&self, m: Candidate, addresses: &mut [i64], grg: &mut [i64], c: Cursor) -> Cursor
        requires { c.next < 1099511627776 }
        ensures next_after { let k = self.now in
            let t = tables addresses.old grg.old c.at c.next in
            tables addresses.new grg.new result.at result.next
            ≡ keep (search_view k.bz) k.p.index (vector_of k.p.address.v) (point_split k.p) k.bound t (vector_of m.v) }
        ensures at_le_next { (c.next ≤ result.next) × (result.next ≤ c.next + 1) }
    {
        if self.bz.distance(self.p.s0, m) < self.bound {
            let a = self.bz.set_bz_address(m, self.p.address, self.p.nint);
            return store(self.p.index, a, addresses, grg, c);
        }
        c
    }

    fn keep_one(
        &self,
        m: Candidate,
        rest: bool,
        addresses: &mut [i64],
        grg: &mut [i64],
        c: Cursor,
    ) -> Cursor
        requires { c.next < 1099511627776 }
        ensures next_after { let k = self.now in
            let t = tables addresses.old grg.old c.at c.next in
            tables addresses.new grg.new result.at result.next
            ≡ kept (search_view k.bz) k.p.index (vector_of k.p.address.v) (point_split k.p) k.bound t (chosen rest (vector_of m.v)) }
        ensures at_le_next { (c.next ≤ result.next) × (result.next ≤ c.next + 1) }
    {
        if rest && !candidates::is_outside(m.v) {
            return c;
        }
        self.keep(m, addresses, grg, c)
    }

    // The loops of bzsearch's least_box, which says why there are two.
    fn keep_box(
        &self,
        b: Axes,
        rest: bool,
        addresses: &mut [i64],
        grg: &mut [i64],
        c: Cursor,
    ) -> Cursor
        requires { c.next + 35937 ≤ 1099511627776 }
        ensures next_after { let k = self.now in
            let t = tables addresses.old grg.old c.at c.next in
            tables addresses.new grg.new result.at result.next
            ≡ kept (search_view k.bz) k.p.index (vector_of k.p.address.v) (point_split k.p) k.bound t (box rest (axes_view b)) }
        ensures at_le_next { (c.next ≤ result.next) × (result.next ≤ c.next + 35937) }
    {
        let mut t = c;
        for i in 0..b.x.n {
            let x = b.x.at(i);
            for j in 0..b.y.n {
                let y = b.y.at(j);
                for k in 0..b.z.n {
                    let m = Candidate {
                        v: [x, y, b.z.at(k)],
                    };
                    t = self.keep_one(m, rest, &mut *addresses, &mut *grg, t);
                }
            }
        }
        t
    }
}

// The images of point i, in the order of the candidates. There are none where the range of the search leaves -16..16.
fn write_point(bz: BzSearch, i: usize, addresses: &mut [i64], grg: &mut [i64], c: Cursor) -> Cursor
    requires fact_1 { i < size (search_view bz).d }
    requires fact_2 { c.next + 71874 ≤ 1099511627776 }
    ensures next_after { tables addresses.new grg.new result.at result.next ≡ stored (tables addresses.old grg.old c.at c.next) (images_at (search_view bz) i) }
    ensures at_le_next { (c.next ≤ result.next) × (result.next ≤ c.next + 71874) }
{
    let p = bz.point(i);
    let r = bz.search_range(p.s0);
    if !candidates::range_fits(r) {
        return c;
    }
    let b = candidates::boxes_of(r);
    let keeping = Keeping {
        bz,
        p,
        bound: bz.bound(p.s0, b),
    };
    let t = keeping.keep_box(b.first, false, &mut *addresses, &mut *grg, c);
    match b.rest {
        None => t,
        Some(whole) => keeping.keep_box(whole, true, addresses, grg, t),
    }
}

// All points below n. The number of images before each goes into the map from place `base` on, and at last the number of all. Where a point has no image
// the walk ends with None, and the outputs say nothing.
pub fn write_table(
    bz: BzSearch,
    sparse: bool,
    n: usize,
    base: usize,
    addresses: &mut [i64],
    map: &mut [i64],
    grg: &mut [i64],
) -> Option<usize>
    requires fact_1 { n ≡ size (search_view bz).d }
    requires fact_2 { base ≤ 524288 }
    ensures value { result ≡ walk_of sparse (images_at (search_view bz)) n }
    ensures result_bound { images_in result < 1099511627776 }
    ensures written_to { let g = images_at (search_view bz) in
        T (all_found g n) → WrittenTo sparse g n base addresses.old map.old grg.old addresses.new map.new grg.new }
{
    let from = if_sparse(sparse, n);
    let mut k = from;
    for i in 0..n {
        put_count(&mut *map, base + i, k - from);
        let c = start(sparse, i, k);
        let t = write_point(bz, i, &mut *addresses, &mut *grg, c);
        if t.next == c.next {
            return None;
        }
        k = t.at;
    }
    put_count(map, base + n, k - from);
    Some(k)
}

// Each address at its place on the doubled mesh; the last one wins.
pub fn place_images(addresses: &[i64], g: Grid, map: &mut [i64])
    requires { length map.old ≡ size (sides g) }
    ensures { map.new ≡ placed_flat (sides g) addresses.now (length addresses.now / 3) map.old }
{
    // By index: for chunks_exact the proof needs three lemmas on what is left of the list, as job's put_triplets does; for row_at none.
    for k in 0..addresses.len() / 3 {
        let at = grgrid::fold_address(common::row_at(addresses, 3 * k), g).index;
        map[at] = k as i64;
    }
}
