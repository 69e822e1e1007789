// Whose SSRC and whose User ID it is, among the seats on the sheet alone.
ghost use Rattle.seats.specs.Promises.{by_ssrc≡, by_user≡, is_new_name≡};

use super::Senders;
use super::user::{has_name, is_user_id};
use sheet::Users;

// The seat on the sheet with this SSRC.
pub fn by_ssrc(senders: Senders, ssrc: u32) -> Option<u8>
    ensures { by_ssrc≡ senders ssrc result }
{
    senders
        .ssrcs
        .iter()
        .take(senders.seats as usize)
        .position(|x| *x == ssrc)
        .map(|s| s as u8)
}

// The seat on the sheet with this User ID.
pub fn by_user(seats: u32, users: &Users, name: &[u8]) -> Option<u8>
    ensures { by_user≡ seats users.now name.now result }
{
    users
        .iter()
        .take(seats as usize)
        .position(|row| has_name(row, name))
        .map(|s| s as u8)
}

// Whether a name can be a User ID and none of the first seats has it.
pub fn is_new_name(seats: u32, users: &Users, name: &[u8]) -> bool
    ensures { is_new_name≡ seats users.now name.now result }
{
    is_user_id(name) && by_user(seats, users, name).is_none()
}
