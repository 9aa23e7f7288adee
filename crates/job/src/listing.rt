// The text that a job prints, written into a lent slice.
// No Display: what is written and the count are one equation, and without room nothing is.
ghost use Rattle.std.specs.Prelude.{◌≡◌, ◌/◌, length, Some};
ghost use Rattle.grgrid.specs.Build.{concat};
ghost use Rattle.decimal.specs.Decimal.{decimal, signed_decimal};
ghost use Rattle.job.specs.Listing.{spaced, line, triplet_line, listing, refusal};
ghost use Rattle.job.specs.Writing.{printed, page, put, puts, finished};

use common::Refusal;

// One byte at place n, where there is room.
fn put(b: u8, out: &mut [u8], n: usize) -> Option<usize>
    ensures { page out.new result ≡ put (page out.old (Some n)) b }
{
    if n < out.len() {
        out[n] = b;
        return Some(n + 1);
    }
    None
}

fn put_word(word: &[u8], out: &mut [u8], n: usize) -> Option<usize>
    ensures { page out.new result ≡ puts (page out.old (Some n)) word.now }
{
    let mut m = n;
    for &b in word {
        m = put(b, out, m)?;
    }
    Some(m)
}

// The last digit stands after those of the tenth.
fn put_decimal(u: u64, out: &mut [u8], n: usize) -> Option<usize>
    ensures { page out.new result ≡ puts (page out.old (Some n)) (decimal u) }
{
    if u < 10 {
        return put(b'0' + u as u8, out, n);
    }
    let m = put_decimal(u / 10, out, n)?;
    put(b'0' + (u % 10) as u8, out, m)
}

fn put_number(z: i64, out: &mut [u8], n: usize) -> Option<usize>
    ensures { page out.new result ≡ puts (page out.old (Some n)) (signed_decimal z) }
{
    let m = if z < 0 { put(b'-', out, n)? } else { n };
    put_decimal(z.unsigned_abs(), out, m)
}

// Each after a blank.
fn put_numbers(list: &[i64], out: &mut [u8], n: usize) -> Option<usize>
    ensures { page out.new result ≡ puts (page out.old (Some n)) (concat (spaced list.now) (length list.now)) }
{
    let mut m = n;
    for &z in list {
        m = put(b' ', out, m)?;
        m = put_number(z, out, m)?;
    }
    Some(m)
}

fn put_line(word: &[u8], list: &[i64], out: &mut [u8], n: usize) -> Option<usize>
    ensures { page out.new result ≡ puts (page out.old (Some n)) (line word.now list.now) }
{
    let n = put_word(word, out, n)?;
    let n = put_numbers(list, out, n)?;
    put(b'\n', out, n)
}

// Three numbers a line.
fn put_triplets(list: &[i64], out: &mut [u8], n: usize) -> Option<usize>
    ensures { page out.new result ≡ puts (page out.old (Some n)) (concat (triplet_line list.now) (length list.now / 3)) }
{
    let mut m = n;
    for three in list.chunks_exact(3) {
        m = put_line(b"triplet", three, out, m)?;
    }
    Some(m)
}

// Without room, 0 everywhere.
fn finish(out: &mut [u8], p: Option<usize>) -> Option<usize>
    ensures { page out.new result ≡ finished out.old p }
{
    if p.is_none() {
        out.fill(0);
    }
    p
}

fn put_listing(
    d: [i64; 3],
    map: &[i64],
    classes: i64,
    triplets: &[i64],
    out: &mut [u8],
    n: usize,
) -> Option<usize>
    ensures { page out.new result ≡ puts (page out.old (Some n)) (listing d map.now classes triplets.now) }
{
    let n = put_line(b"grid", &d, out, n)?;
    let n = put_line(b"map", map, out, n)?;
    let n = put_line(b"ir", &[classes], out, n)?;
    put_triplets(triplets, out, n)
}

// The diagonal, the class map, the number of classes, three image indices a triplet.
pub fn print_listing(
    d: [i64; 3],
    map: &[i64],
    classes: i64,
    triplets: &[i64],
    out: &mut [u8],
) -> Option<usize>
    ensures { page out.new result ≡ printed (listing d map.now classes triplets.now) (length out.old) }
{
    out.fill(0);
    let p = put_listing(d, map, classes, triplets, out, 0);
    finish(out, p)
}

pub fn print_refusal(r: Refusal, out: &mut [u8]) -> Option<usize>
    ensures { page out.new result ≡ printed (refusal r) (length out.old) }
{
    out.fill(0);
    let p = put_line(b"refused", &[r.answer()], out, 0);
    finish(out, p)
}
