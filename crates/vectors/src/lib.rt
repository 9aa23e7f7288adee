// The Rust's answers, a case a line: how a line is read, and what it says of the port.
#![tactic(auto)]

pub mod compared;
pub mod floats;
pub mod slices;
pub mod tally;
pub mod text;

// What a vector says of the port; `None` stands for a line that is no vector of the function.
#[derive(Clone, Copy, Debug, PartialEq, Eq)]
pub enum Verdict {
    Same,
    Differs,
}

// What outputs are lent filled with, so that a place that is not written shows: no answer in the vectors has it.
pub const UNWRITTEN: i64 = -7_777_777_777_777;

pub const UNWRITTEN_FLOAT: f64 = -2.5;

pub const UNWRITTEN_BYTE: u8 = 255;
