// Reads a job file on standard input and prints its finished list, or its refusal. It holds at most 256 points and 1,024 images.
#![tactic(auto)]

use std::io;

// Fixed arrays: no heap.
fn main(rt: HostRuntime) -> io::Result<()> {
    let mut held = [0u8; 8193];
    let n = input::read_job(&mut rt.reader(), &mut held)?;
    let mut addresses = [0; 3072];
    let mut map = [-1; 2305];
    let mut grg = [0; 1024];
    let mut classes = [0; 256];
    let mut points = [0; 256];
    let mut triplets = [0; 768];
    let mut left = [0; 256];
    let mut lengths = [0.0; 256];
    let mut cells = [0; 768];
    let mut text = [0u8; 8192];
    let bytes = zone_print::print_job(
        &held[..n],
        &mut addresses,
        &mut map,
        &mut grg,
        &mut classes,
        &mut points,
        &mut triplets,
        &mut left,
        &mut lengths,
        &mut cells,
        &mut text,
    );
    rt.write_all(&text[..bytes])
}
