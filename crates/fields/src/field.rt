// One field at a place of any octets (document 01, "Packet").
ghost use Rattle.std.specs.Prelude.{◌≡◌, ◌≤◌, length};
ghost use Rattle.fields.specs.Walk.{place_right};
ghost use Rattle.fields.specs.Inner.{past_field};
ghost use Rattle.fields.specs.Promises.{field_at≡};

use super::codes::FIRST_FIELD;
use super::walk::{size_of, walk};
use sheet::Refusal;

// A field: the place of its ID octet, its ID, the length of its value, which begins two octets on, and where the next field begins.
#[derive(Clone, Copy)]
pub struct Field {
    pub at: usize,
    pub id: u8,
    pub len: usize,
    pub next: usize,
}

// Not a place below 12, off a word or past the end.
#[tactic(auto, unfolding(crate::specs::Walk::place_right))]
fn is_place_right(packet: &[u8], at: usize) -> bool
    ensures { result ≡ place_right packet.now at }
{
    FIRST_FIELD <= at && at % 4 == 0 && at <= packet.len()
}

// Where the field at a place ends with its padding; none where it is a bad one.
fn past_field(packet: &[u8], at: usize) -> Option<usize>
    requires { at ≤ length packet.now }
    ensures { result ≡ past_field packet.now at }
{
    if packet.len() - at < 4 {
        return None;
    }
    let next = at + size_of(packet[at + 1] as u32);
    if packet.len() < next {
        return None;
    }
    if walk(&packet[..next], at) == next {
        Some(next)
    } else {
        None
    }
}

// The field at a place of any octets; none at the end; or 4 for a bad field, or a place below 12, off a word or past the end.
pub fn field_at(packet: &[u8], at: usize) -> Result<Option<Field>, Refusal>
    ensures { field_at≡ packet.now at result }
{
    if !is_place_right(packet, at) {
        return Err(Refusal::Layout);
    }
    if at == packet.len() {
        return Ok(None);
    }
    let next = past_field(packet, at).ok_or(Refusal::Layout)?;
    Ok(Some(Field {
        at,
        id: packet[at],
        len: packet[at + 1] as usize,
        next,
    }))
}
