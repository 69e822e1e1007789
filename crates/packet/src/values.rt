// The message of a packet, made from the places of its fields (document 01, "Packet").
ghost use Rattle.std.specs.Prelude.{◌≡◌, ◌+◌, ◌<◌, ◌≤◌, length};
ghost use Rattle.octets.specs.Big.{big_at};
ghost use Rattle.kinds.specs.Inner.{Sorted, name_from, indicator_from, result_from, cause_from, read_as_found};
ghost use Rattle.packet.specs.Message.{name_said, indicator_said, result_said, cause_said, message_said};
ghost use Rattle.packet.specs.Asked.{asks_of, asks_said};
ghost use Rattle.packet.specs.Inner.{head_in};

use super::{Asked, Head, Message, Name, Verdict};
use kinds::{Found, Kind};

// The 16-bit number at the front of the value of the field at a place. (That it lies inside stands in each of these small contracts: a type for a place in a packet
// would be longer than the four lines.)
fn number_at(packet: &[u8], at: usize) -> u16
    requires { at + 4 ≤ length packet.now }
    ensures { result ≡ big_at 2 packet.now (at + 2) }
{
    octets::u16_of(packet[at + 2], packet[at + 3])
}

// The name that is the value of the field at a place.
fn name_at(packet: &[u8], at: usize) -> Name
    requires { (at + 4 ≤ length packet.now) × (length packet.now ≤ 256) }
    ensures { name_said result ≡ name_from packet.now at }
{
    Name {
        at: (at + 2) as u32,
        len: packet[at + 1] as u32,
    }
}

// The Indicator at a place, or none at 0.
#[tactic(auto, unfolding(kinds::specs::Inner::number_from))]
fn indicator_at(packet: &[u8], at: usize) -> Option<u16>
    requires { at + 4 ≤ length packet.now }
    ensures { indicator_said result ≡ indicator_from packet.now at }
{
    if at == 0 {
        None
    } else {
        Some(number_at(packet, at))
    }
}

// The Result at a place, and where it is 0 the Reject Cause at another.
#[tactic(auto, unfolding(kinds::specs::Inner::number_from))]
fn verdict_at(packet: &[u8], at: usize, cause: usize) -> Verdict
    requires { (at + 4 ≤ length packet.now) × (cause + 4 ≤ length packet.now) }
    ensures { (result_said result ≡ result_from packet.now at) × (cause_said result ≡ cause_from packet.now at cause) }
{
    if number_at(packet, at) == 1 {
        Verdict::Granted
    } else {
        Verdict::Rejected(number_at(packet, cause))
    }
}

// The sender's SSRC, and whether an Ack is asked. The octets are there: `u32_at` would ask again.
#[tactic(auto, unfolding(fields::specs::Header::ssrc_in, fields::specs::Header::ack_asked, octets::specs::Big::big_at))]
fn head_of(packet: &[u8]) -> Head
    requires { 12 ≤ length packet.now }
    ensures { result ≡ head_in packet.now }
{
    Head {
        ssrc: u32::from_be_bytes([packet[4], packet[5], packet[6], packet[7]]),
        ack: packet[0] / 16 % 2 == 1,
    }
}

// The message that a packet was found to be.
#[tactic(auto, using(kinds::proofs::Laws::Places::place_inside), unfolding(kinds::specs::Inner::values_from, kinds::specs::Inner::number_from))]
pub fn message_of(packet: &[u8], found: Found) -> Message
    requires { Sorted packet.now found }
    ensures { message_said result ≡ read_as_found packet.now found }
{
    let head = head_of(packet);
    let [first, second, third] = found.places;
    match found.kind {
        Kind::ReceiveRequest => Message::ReceiveRequest {
            head,
            user: name_at(packet, first),
            source: name_at(packet, second),
            indicator: indicator_at(packet, third),
        },
        Kind::ReceiveResponse => Message::ReceiveResponse {
            head,
            verdict: verdict_at(packet, first, second),
            indicator: indicator_at(packet, third),
        },
        Kind::EndRequest => Message::EndRequest {
            head,
            transmitter: name_at(packet, first),
            indicator: indicator_at(packet, second),
        },
        Kind::EndResponse => Message::EndResponse {
            head,
            transmitter: name_at(packet, first),
        },
        Kind::TransmissionEnd => Message::TransmissionEnd {
            head,
            cause: number_at(packet, first),
            indicator: indicator_at(packet, second),
        },
        Kind::TransmissionEndResponse => Message::TransmissionEndResponse { head },
        Kind::Ack => Message::Ack {
            head,
            source: number_at(packet, first),
            about: packet[second + 2],
        },
    }
}

// What a packet that was found to be this asks of the controller.
#[tactic(auto, using(kinds::proofs::Laws::Places::place_inside), unfolding(crate::specs::Asked::asks_of, kinds::specs::Inner::values_from))]
pub fn asked_of(packet: &[u8], found: Found) -> Option<Asked>
    requires { Sorted packet.now found }
    ensures { asks_said result ≡ asks_of (read_as_found packet.now found) }
{
    let head = head_of(packet);
    let places = found.places;
    match found.kind {
        Kind::ReceiveRequest => Some(Asked::Request {
            ssrc: head.ssrc,
            user: name_at(packet, places[0]),
            source: name_at(packet, places[1]),
        }),
        Kind::EndRequest => Some(Asked::End {
            ssrc: head.ssrc,
            transmitter: name_at(packet, places[0]),
        }),
        Kind::TransmissionEndResponse => Some(Asked::EndResponse { head }),
        _ => None,
    }
}
