// What the programs that take a job share: standard input is read.
#![tactic(auto)]

ghost use Rattle.std.specs.Io.{ReadsAtMost};

use std::io;
use std::io::Read;

// Reads until `held` is full or the input ends, and answers how many bytes it put to the front. `io::copy` would keep a second
// buffer of 8 KiB. The replays have such a loop of their own, which a failed read ends.
pub fn read_full(input: &mut impl Read, held: &mut [u8]) -> io::Result<usize>
    ensures { ReadsAtMost result held.new }
{
    let mut done = 0;
    while done < held.len() {
        let n = input.read(&mut held[done..])?;
        if n == 0 {
            break;
        }
        done += n;
    }
    Ok(done)
}

// A job, and one byte more than it may have, so that a longer one is refused: a program with a shorter array does not compile.
pub fn read_job(input: &mut impl Read, held: &mut [u8; 8193]) -> io::Result<usize>
    ensures { ReadsAtMost result held.new }
{
    read_full(input, held)
}
