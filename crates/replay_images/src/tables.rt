// One case of the calls that make the tables of images, also of another table, or tell their lengths.
use vectors::compared::Compared;
use vectors::{UNWRITTEN, Verdict, floats, slices};

// The answer, the tables, which are lent with the lengths that the line has, and ten numbers told.
fn made<F: Fn(&mut [i64], &mut [i64], &mut [i64], &mut [i64]) -> i64>(
    line: &[i64],
    call: F,
) -> Verdict
where
    F: Drop,
    requires { F.IsAlwaysCallable call }
{
    let first = slices::after_answer(line);
    let second = slices::after_output(first);
    let third = slices::after_output(second);
    let mut addresses = [UNWRITTEN; 2048];
    let addresses = slices::lent(first, &mut addresses);
    let mut map = [UNWRITTEN; 4096];
    let map = slices::lent(second, &mut map);
    let mut grg = [UNWRITTEN; 2048];
    let grg = slices::lent(third, &mut grg);
    let mut told = [UNWRITTEN; 10];
    let answer = call(addresses, map, grg, &mut told);
    Compared::with(line)
        .number(answer)
        .output(addresses)
        .output(map)
        .output(grg)
        .numbers(&told)
        .verdict()
}

// Three slices, the lattice and the type, then what is made.
pub fn bz_grid_addresses(line: &[i64]) -> Option<Verdict> {
    let (d, line) = slices::split(line);
    let (q, line) = slices::split(line);
    let (ps, line) = slices::split(line);
    let mut lattice = [0.0; 16];
    let (lattice, line) = floats::read(line, &mut lattice)?;
    let (bz_grid_type, line) = line.split_first()?;
    Some(made(line, |addresses, map, grg, told| {
        zone_c::zone_bz_grid_addresses(d, q, ps, lattice, *bz_grid_type, addresses, map, grg, told)
    }))
}

// The same with the three lengths, a slice, after the type.
pub fn bz_grid_fill(line: &[i64]) -> Option<Verdict> {
    let (d, line) = slices::split(line);
    let (q, line) = slices::split(line);
    let (ps, line) = slices::split(line);
    let mut lattice = [0.0; 16];
    let (lattice, line) = floats::read(line, &mut lattice)?;
    let (bz_grid_type, line) = line.split_first()?;
    let (sizes, line) = slices::split(line);
    Some(made(line, |addresses, map, grg, told| {
        zone_c::zone_bz_grid_fill(
            d,
            q,
            ps,
            lattice,
            *bz_grid_type,
            sizes,
            addresses,
            map,
            grg,
            told,
        )
    }))
}

// Three slices, the lattice, the type, the answer and the three lengths.
pub fn bz_grid_sizes(line: &[i64]) -> Option<Verdict> {
    let (d, line) = slices::split(line);
    let (q, line) = slices::split(line);
    let (ps, line) = slices::split(line);
    let mut lattice = [0.0; 16];
    let (lattice, line) = floats::read(line, &mut lattice)?;
    let (bz_grid_type, line) = line.split_first()?;
    let mut told = [UNWRITTEN; 3];
    let answer = zone_c::zone_bz_grid_sizes(d, q, ps, lattice, *bz_grid_type, &mut told);
    Some(Compared::with(line).number(answer).numbers(&told).verdict())
}

// Four slices, then what is made.
pub fn convert_bz_grid(line: &[i64]) -> Option<Verdict> {
    let (table, line) = slices::split(line);
    let (addresses, line) = slices::split(line);
    let (map, line) = slices::split(line);
    let (grg, line) = slices::split(line);
    Some(made(line, |out_addresses, out_map, out_grg, told| {
        zone_c::zone_convert_bz_grid(
            table,
            addresses,
            map,
            grg,
            out_addresses,
            out_map,
            out_grg,
            told,
        )
    }))
}
