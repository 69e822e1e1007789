// The call sheet read from text (document 01, "Call sheet").
#![tactic(auto)]

mod scan;

ghost use Rattle.sheet_text.specs.Promises.{read_with≡, read≡, users≡};

use sheet::{Refusal, SEATS, Sheet, Users, WIDTH};

// A sheet and how many octets it took.
#[derive(Clone, Copy)]
pub struct Reading {
    pub sheet: Sheet,
    pub used: usize,
}

// Reads a sheet from the front of a text: the value and the octets used, or 12 with the first bad or missing line. Its User IDs go into `users`, which a
// refusal leaves as they were.
pub fn read_with(text: &[u8], users: &mut Users) -> Result<Reading, Refusal>
    ensures { read_with≡ text.now users.old result users.new }
{
    let mut found = [[0u8; WIDTH]; SEATS];
    let read = scan::scan(text, &mut found)?;
    *users = found;
    Ok(read)
}

// The same without the User IDs.
pub fn read(text: &[u8]) -> Result<Reading, Refusal>
    ensures { read≡ text.now result }
{
    let mut users = [[0u8; WIDTH]; SEATS];
    read_with(text, &mut users)
}

// The User IDs of the sheet at the front of a text; all zeros where the sheet is refused.
pub fn users(text: &[u8]) -> Users
    ensures { users≡ text.now result }
{
    let mut users = [[0u8; WIDTH]; SEATS];
    let _ = read_with(text, &mut users);
    users
}
