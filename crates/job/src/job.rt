// The job file: words, sections, and the job that they tell.
ghost use Rattle.std.specs.Prelude.{◌≡◌, true, ◌+◌, ◌*◌, ◌≤◌, ◌<◌, length};
ghost use Rattle.job.specs.Job.{word, signed, float, signed_words, floats, header, section_fits};
ghost use Rattle.job.specs.Job.{numbers_fit, sections_fit, job_fits, job_of, rotations_written, accepted};

use common::Refusal;

// A job as it was read; `count` rotations stand beside it.
#[derive(Clone, Copy)]
pub struct Job {
    pub a: [i64; 9],
    pub lattice: [f64; 9],
    pub count: usize,
    pub time_reversal: bool,
    pub swapping: bool,
    pub grid_type: i64,
    pub q0: i64,
}

#[tactic(auto, unfolding(crate::specs::Job::word))]
fn word(bytes: &[u8], at: usize) -> usize
    requires { at + 4 ≤ length bytes.now }
    ensures value { result ≡ word bytes.now at }
    ensures upper_bound { result < 0x100000000 }
{
    u32::from_le_bytes([bytes[at], bytes[at + 1], bytes[at + 2], bytes[at + 3]]) as usize
}

// No `cast_signed`: of 32 bits, it would take a cast before and one after.
#[tactic(auto, using(crate::proofs::Words::small_word))]
fn signed(w: usize) -> i64
    requires { w < 0x100000000 }
    ensures { result ≡ signed w }
{
    if w < 0x8000_0000 {
        return w as i64;
    }
    w as i64 - 0x1_0000_0000
}

// Two words, the low one first.
#[tactic(auto, unfolding(crate::specs::Job::float))]
fn float(bytes: &[u8], at: usize) -> f64
    requires { at + 8 ≤ length bytes.now }
    ensures { result ≡ float bytes.now at }
{
    let low = word(bytes, at) as u64;
    let high = word(bytes, at + 4) as u64;
    float::of_bits(low + 0x1_0000_0000 * high)
}

// As many signed words as out has places, from byte `at` on.
fn signed_words(bytes: &[u8], at: usize, out: &mut [i64])
    requires { at + 4 * length out.old ≤ length bytes.now }
    ensures { out.new ≡ signed_words bytes.now at (length out.old) }
{
    for (k, x) in out.iter_mut().enumerate() {
        *x = signed(word(bytes, at + 4 * k));
    }
}

fn floats(bytes: &[u8], at: usize, out: &mut [f64])
    requires { at + 8 * length out.old ≤ length bytes.now }
    ensures { out.new ≡ floats bytes.now at (length out.old) }
{
    for (k, x) in out.iter_mut().enumerate() {
        *x = float(bytes, at + 8 * k);
    }
}

// From byte 32 on, up to the end.
fn section_fits(at: usize, size: usize, n: usize) -> bool
    requires { (at < 0x100000000) × (size < 0x10000000000) }
    ensures { result ≡ section_fits at size n }
{
    32 <= at && at + size <= n
}

fn numbers_fit(bytes: &[u8]) -> bool
    requires { 32 ≤ length bytes.now }
    ensures { result ≡ numbers_fit (header bytes.now) (length bytes.now) }
{
    word(bytes, 0) == bytes.len() && word(bytes, 4) <= 192 && word(bytes, 20) <= 3
}

fn sections_fit(bytes: &[u8]) -> bool
    requires { 32 ≤ length bytes.now }
    ensures { result ≡ sections_fit (header bytes.now) (length bytes.now) }
{
    let n = bytes.len();
    section_fits(word(bytes, 8), 36, n)
        && section_fits(word(bytes, 12), 36 * word(bytes, 4), n)
        && section_fits(word(bytes, 16), 72, n)
}

#[tactic(auto, unfolding(crate::specs::Job::job_fits))]
fn job_fits(bytes: &[u8]) -> bool
    ensures { result ≡ job_fits bytes.now }
{
    32 <= bytes.len() && bytes.len() <= 8192 && numbers_fit(bytes) && sections_fit(bytes)
}

#[tactic(auto, using(crate::proofs::Sections::sections), unfolding(crate::specs::Job::accepted))]
fn accept(bytes: &[u8]) -> Job
    requires { job_fits bytes.now ≡ true }
    ensures { result ≡ accepted bytes.now }
{
    let mut a = [0i64; 9];
    signed_words(bytes, word(bytes, 8), &mut a);
    let mut lattice = [0.0f64; 9];
    floats(bytes, word(bytes, 16), &mut lattice);
    let flags = word(bytes, 20);
    Job {
        a,
        lattice,
        count: word(bytes, 4),
        time_reversal: flags % 2 == 1,
        swapping: 2 <= flags,
        grid_type: word(bytes, 24) as i64,
        q0: word(bytes, 28) as i64,
    }
}

// The rotations stand in the first places, nine numbers each.
pub fn read_job(bytes: &[u8], rotations: &mut [i64]) -> Result<Job, Refusal>
    requires { length rotations.old ≡ 1728 }
    ensures value { result ≡ job_of bytes.now }
    ensures rotations_after { rotations.new ≡ rotations_written bytes.now 1728 }
{
    rotations.fill(-1);
    if !job_fits(bytes) {
        return Err(Refusal::BadHeader);
    }
    let n = 9 * word(bytes, 4);
    signed_words(bytes, word(bytes, 12), &mut rotations[..n]);
    Ok(accept(bytes))
}
