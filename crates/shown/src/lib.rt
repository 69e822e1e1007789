// What `mcvlook` prints for a line (document 01, "Bench program"): a packet in hex comes in, and out goes a line of text, its ten values or its
// refusal; and the line for a sheet that is refused.
#![tactic(auto)]

mod decimal;
pub mod line;
pub mod print;
mod text;
mod values;

// An octet of the input makes at most so many of the output.
pub const TIMES: usize = 10;

pub const LF: u8 = 10;
