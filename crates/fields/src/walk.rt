// The walk over a packet's fields (document 01, "Packet"): ID octet, length octet, value, zeros to the next word.
ghost use Rattle.fields.specs.Promises.{size_of≡, walk≡};

use super::codes::ID_END;

// How many octets a field takes with its padding, by the length of its value.
#[tactic(auto, unfolding(crate::specs::Walk::to_word))]
pub fn size_of(len: u32) -> usize
    ensures { size_of≡ len result }
{
    (2 + (len as usize) + 3) / 4 * 4
}

// Walks over the fields from a place on, and gives the place where it stops: that of the first bad one, or past the last.
pub fn walk(packet: &[u8], from: usize) -> usize
    ensures { walk≡ packet.now from result }
{
    if packet.len() < 4 {
        return from;
    }
    // From here on there is no room for a field, which takes a word at least.
    let end = packet.len() - 3;
    let mut at = from;
    // Document 01's form: "A labelled loop over fields with an inner padding check leaves both at the first fault and yields its place".
    'walk: while at < end {
        if ID_END <= packet[at] {
            break 'walk;
        }
        let len = packet[at + 1];
        let size = size_of(len as u32);
        if packet.len() - at < size {
            break 'walk;
        }
        for octet in &packet[at + 2 + (len as usize)..at + size] {
            if *octet != 0 {
                break 'walk;
            }
        }
        at += size;
    }
    at
}
