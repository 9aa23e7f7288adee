// What the programs that replay vectors share: the cases of a file are judged and counted, and the counts printed.
#![tactic(auto)]

ghost use Rattle.std.specs.Prelude.{◌≤◌, length};
ghost use Rattle.vectors.specs.Line.{Front};

use std::fs::File;
use std::io;
use std::io::Read;
use std::rt::Files;
use vectors::tally::Tally;
use vectors::{Verdict, text};

// Reads until `text` is full, the file ends or a read fails, and answers how many bytes it put to the front.
// `io::copy` would lose that number where a read fails, and `input::read_full` hands such a failure on.
fn read_full(file: &mut impl Read, text: &mut [u8]) -> usize
    ensures { Front result text.new }
{
    let mut done = 0;
    while done < text.len() {
        match file.read(&mut text[done..]) {
            Ok(0) | Err(_) => break,
            Ok(n) => done += n,
        }
    }
    done
}

// The file, read into `text`; nothing where there is none or it has no room, which is told. A failed write of
// that is left to the counts, which are printed next.
fn read_vectors<'a>(rt: &(impl Files + Print), name: &str, text: &'a mut [u8]) -> &'a [u8]
    ensures { length result.now ≤ length text.old }
{
    let Ok(mut file) = File::open(rt, name) else {
        let _ = print!(rt; "no vectors: ");
        return &[];
    };
    let n = read_full(&mut file, text);
    if n == text.len() {
        let _ = print!(rt; "too long: ");
        return &[];
    }
    &text[..n]
}

// Counts the cases by what is judged of each, as they stand or with another last number. A line that begins
// with # is a comment.
// That `judge` may be called is a clause: it is of a type parameter.
fn tally<F: Fn(&[i64]) -> Option<Verdict>>(
    lines: &[u8],
    altered: bool,
    numbers: &mut [i64],
    judge: &F,
) -> Tally
    requires { F.IsAlwaysCallable judge.now }
{
    let mut tally = Tally::new();
    for line in lines.split_inclusive(|b| *b == b'\n') {
        if !line.starts_with(b"#") {
            let line = line.strip_suffix(b"\n").unwrap_or(line);
            tally = tally.with(text::case(line, altered, numbers).and_then(|n| judge(n)));
        }
    }
    tally
}

// Replays the cases of a file: prints, after the name of the call, how many there are, how many differ, and
// how many differ once their last number is altered. `numbers` holds those of a line.
pub fn replay_as<F: Fn(&[i64]) -> Option<Verdict>>(
    rt: &(impl Files + Print),
    file: &str,
    call: &str,
    numbers: &mut [i64],
    judge: F,
) -> io::Result<()>
where
    F: Drop,
    requires { F.IsAlwaysCallable judge }
{
    let mut text = [0u8; 131072];
    let lines = read_vectors(rt, file, &mut text);
    let told = tally(lines, false, numbers, &judge);
    let altered = tally(lines, true, numbers, &judge);
    println!(rt;
        "{call} cases {} differences {} unread {} altered {}",
        told.cases, told.differences, told.unread, altered.differences
    )
}

// The same of a file that has the name of the call.
pub fn replay<F: Fn(&[i64]) -> Option<Verdict>>(
    rt: &(impl Files + Print),
    call: &str,
    numbers: &mut [i64],
    judge: F,
) -> io::Result<()>
where
    F: Drop,
    requires { F.IsAlwaysCallable judge }
{
    replay_as(rt, call, call, numbers, judge)
}
