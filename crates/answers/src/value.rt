// The User IDs of a sheet's value among the octets of a case: eight rows behind its numbers.
use super::part::behind;
use asked::NUMBERS;
use sheet::{SEATS, Users, WIDTH};
use std::array;

// How many octets a value takes.
pub const LENGTH: usize = NUMBERS + SEATS * WIDTH;

// The row at the front of some octets; those past the end count as 0.
fn row_in(octets: &[u8]) -> [u8; WIDTH] {
    array::from_fn(|i| octets.get(i).copied().unwrap_or(0))
}

// The User IDs of the value at the front of a body.
pub fn users_in(body: &[u8]) -> Users {
    let rows = behind(body, NUMBERS);
    array::from_fn(|s| row_in(behind(rows, s * WIDTH)))
}
