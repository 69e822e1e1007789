// The names of a message to be written: whether some packet has them (document 01, "Packet").
ghost use Rattle.std.specs.Prelude.{◌≡◌, ◌+◌, ◌<◌};
ghost use Rattle.plan.specs.Inner.{name_right_at, names_right};

use super::standing::Row;
use kinds::Kind;
use packet::row::{NAMED, NUMBERS, USER};
use seats::user::is_user_id;

// Whether the place that stands here in a row, with its length behind it, lies in `names`, and a User ID stands there.
#[tactic(auto, unfolding(crate::specs::Inner::name_right_at, packet::specs::Claims::name_right))]
fn is_right(message: &[u32; NUMBERS], at: usize, names: &[u8]) -> bool
    requires { at + 1 < 12 }
    ensures { result ≡ name_right_at names.now message.now at }
{
    let from = message[at] as usize;
    let end = from + (message[at + 1] as usize);
    names.get(from..end).is_some_and(is_user_id)
}

// Whether each name of the message of a row is right. (Inlined, so that a call that writes calls nothing more: there is little stack.)
#[tactic(auto, unfolding(crate::specs::Inner::names_right))]
#[inline(always)]
pub fn are_right(row: Row, names: &[u8]) -> bool
    ensures { result ≡ names_right names.now row.entry.message.now }
{
    let message = row.message;
    match row.kind {
        Kind::ReceiveRequest if !is_right(message, USER, names) => false,
        Kind::ReceiveRequest | Kind::EndRequest | Kind::EndResponse => {
            is_right(message, NAMED, names)
        }
        _ => true,
    }
}
