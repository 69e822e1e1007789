// The header of a packet (document 01, "Packet"; RFC 3550, 6.7).
ghost use Rattle.std.specs.Prelude.{◌≡◌, ◌≤◌, length};
ghost use Rattle.fields.specs.Header.{size_right, head_right};
ghost use Rattle.fields.specs.Promises.{check≡};

use super::codes::{APP, FIRST_FIELD};
use sheet::Refusal;

// The most octets of a packet.
const MOST: usize = 256;

// "12 to 256 octets, a multiple of 4".
#[tactic(auto, unfolding(crate::specs::Header::size_right))]
fn is_size_right(packet: &[u8]) -> bool
    ensures { result ≡ size_right packet.now }
{
    let len = packet.len();
    FIRST_FIELD <= len && len <= MOST && len % 4 == 0
}

// Version 2, padding bit 0, type 204, and the length that of the packet, in words minus one.
#[tactic(auto, using(crate::proofs::Laws::Checks::version_bits), unfolding(crate::specs::Header::head_right))]
fn is_head_right(packet: &[u8]) -> bool
    requires { 12 ≤ length packet.now }
    ensures { result ≡ head_right packet.now }
{
    packet[0] / 32 == 4
        && packet[1] == APP
        && ((octets::u16_at(packet, 2) as usize) + 1) * 4 == packet.len()
}

// Checks 1 and 2, in that order.
#[tactic(auto, using(crate::proofs::Laws::Sized::long), unfolding(crate::specs::Header::checked))]
pub fn check(packet: &[u8]) -> Result<(), Refusal>
    ensures { check≡ packet.now result }
{
    if !is_size_right(packet) {
        return Err(Refusal::Size);
    }
    if !is_head_right(packet) {
        return Err(Refusal::Header);
    }
    Ok(())
}
