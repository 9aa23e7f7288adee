// Reads a job file on standard input and prints its class sheet, or its refusal. It holds at most 8,192 points and 16,384 images.
#![tactic(auto)]

use std::io;

// Fixed arrays, 5 MB on the stack: no heap.
fn main(rt: HostRuntime) -> io::Result<()> {
    let mut held = [0u8; 8193];
    let n = input::read_job(&mut rt.reader(), &mut held)?;
    let mut addresses = [0; 49152];
    let mut map = [-1; 73729];
    let mut grg = [0; 16384];
    let mut classes = [0; 8192];
    let mut points = [0; 8192];
    let mut triplets = [0; 24576];
    let mut left = [0; 8192];
    let mut lengths = [0.0; 8192];
    let mut cells = [0; 24576];
    // The sheet of 8,192 classes has 46 * (8,192 + 205) places.
    let mut sheet = [0; 386262];
    let mut text = [0u8; 386262];
    let bytes = sheet_print::print_sheet(
        &held[..n],
        &mut addresses,
        &mut map,
        &mut grg,
        &mut classes,
        &mut points,
        &mut triplets,
        &mut left,
        &mut lengths,
        &mut cells,
        &mut sheet,
        &mut text,
    );
    rt.write_all(&text[..bytes])
}
