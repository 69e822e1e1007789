// The User IDs of the seats, at fixed width: a row holds a User ID and then zeros (document 01, "Call sheet").
ghost use Rattle.std.specs.Prelude.{◌≡◌, ◌↔◌, ℕ, ◌≤◌, ◌<◌, T, length};
ghost use Rattle.sheet.specs.Inner.{good_row};
ghost use Rattle.seats.specs.Inner.{filled};

use super::row::is_same_row;
use super::user::is_user_id;
use sheet::{SEATS, Users, WIDTH};

// How many octets of a row are not zero.
#[tactic(auto, using(crate::proofs::Laws::Filled::filled_more))]
fn filled(row: &[u8; WIDTH]) -> u8
    ensures { (result ≡ filled row.now) × (result ≤ length row.now) × (length row.now ≡ 60) }
{
    let mut n = 0;
    for c in row {
        n += u8::from(*c != 0);
    }
    n
}

// Whether row s, behind rows that are, is as it has to be under so many seats: a new name and zeros, or zeros alone.
fn is_good_row(users: &Users, s: usize, seats: u32) -> bool
    requires { (s < 8) × ((i : ℕ) → i < s → T (good_row seats users.now i)) }
    ensures { result ≡ good_row seats users.now s }
{
    let row = &users[s];
    let n = filled(row) as usize;
    if seats <= s as u32 {
        return n == 0;
    }
    is_user_id(&row[..n]) && !users[..s].iter().any(|other| is_same_row(other, row))
}

// Whether every row is as it has to be under so many seats.
pub fn are_good_rows(users: &Users, seats: u32) -> bool
    ensures { (length users.now ≡ 8) × (T result ↔ ((i : ℕ) → i < 8 → T (good_row seats users.now i))) }
{
    for s in 0..SEATS {
        if !is_good_row(users, s, seats) {
            return false;
        }
    }
    true
}
