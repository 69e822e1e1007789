// An answer as a packet (document 01, "Stream record": "Messages out carry the server's SSRC, no Indicator, and the first subtype bit clear
// by default").
ghost use Rattle.std.specs.Prelude.{◌≡◌, T, length};
ghost use Rattle.sheet.specs.Value.{name_of, sheet_from};
ghost use Rattle.plan.specs.Packet.{fitting};
ghost use Rattle.outgoing.specs.Inner.{row_out, SentFrom};

use packet::row::{NONE, NUMBERS};
use rows::answer::{ANSWER, CAUSE, RESULT, SENDS};
use seats::user::name_length;
use sheet::numbers::{LINES, SERVER};
use sheet::{Refusal, WIDTH};

// An end response, and an Ack.
const END_RESPONSE: u32 = 4;

const ACK: u32 = 7;

// The row of the message that an answer sends: its kind, Result and cause are those that the answer's row names. An end response names the transmitter,
// whose User ID stands at the front of the octets lent beside it; an Ack has Source 2 and Message Type 1. No enum stands between the two rows, since the calls
// of the C interface have rows and less than 256 octets of stack.
fn message_of(server: u32, name: &[u8; WIDTH], answer: &[u32; ANSWER]) -> [u32; NUMBERS]
    ensures { result ≡ row_out server (length (name_of name.now)) answer.now }
{
    let kind = answer[SENDS];
    let len = if kind == END_RESPONSE {
        name_length(name) as u32
    } else {
        0
    };
    let (source, about) = if kind == ACK { (2, 1) } else { (NONE, NONE) };
    [
        kind,
        server,
        0,
        0,
        0,
        0,
        len,
        answer[RESULT],
        answer[CAUSE],
        NONE,
        source,
        about,
    ]
}

// Writes the packet that the answer of a row sends under a sheet's numbers, on the stream of the transmitter whose User ID the other row holds. (0 octets, and no
// Option, where it sends none: so `packet_lent≡` says it, and so C is told.)
pub fn send(
    numbers: &[u32],
    name: &[u8; WIDTH],
    answer: &[u32; ANSWER],
    out: &mut [u8],
) -> Result<u32, Refusal>
    requires { T (fitting numbers.now) }
    ensures { SentFrom (sheet_from numbers.now) name.now answer.now out.old result out.new }
{
    if answer[SENDS] == 0 {
        return Ok(0);
    }
    let message = message_of(numbers[SERVER], name, answer);
    writing::write_by(&numbers[..LINES], &message, name, out)
}
