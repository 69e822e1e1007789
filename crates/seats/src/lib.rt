// The seats of a call sheet (document 01, "Call sheet"): their User IDs at fixed width, and whose SSRC and whose User ID it is.
#![tactic(auto)]

pub mod find;
mod row;
mod seat;
pub mod user;

ghost use Rattle.seats.specs.Promises.{valid_with≡, are_valid_with≡};

use seat::are_good_rows;
use sheet::numbers::{SEATS_LINE, are_valid};
use sheet::{SEATS, Sheet, Users, valid};

// What a search by SSRC looks at.
#[derive(Clone, Copy)]
pub struct Senders {
    pub seats: u32,
    pub ssrcs: [u32; SEATS],
}

// Whether some sheet reads to this struct and these User IDs.
pub fn valid_with(sheet: Sheet, users: &Users) -> bool
    ensures { valid_with≡ sheet users.now result }
{
    valid(sheet) && are_good_rows(users, sheet.seats)
}

// The same of a sheet's numbers in the order of its lines, which C lends: whether there are as many as a sheet has, and some sheet reads to them and these
// User IDs. (A trait over both forms would be longer than this.)
pub fn are_valid_with(numbers: &[u32], users: &Users) -> bool
    ensures { are_valid_with≡ numbers.now users.now result }
{
    are_valid(numbers) && are_good_rows(users, numbers[SEATS_LINE])
}
