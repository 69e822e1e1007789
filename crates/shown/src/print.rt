// A line of text for a message, for a refusal, and for a line of the input (document 01, "Bench program"), into the front of a buffer.
ghost use Rattle.packet.specs.Message.{read_said};
ghost use Rattle.shown.specs.Line.{text_of};
ghost use Rattle.shown.specs.Promises.{Whole, message≡, refusal≡, line≡};

use super::text;
use hex_line::packet_in;
use packet::{Message, Numbers, read_by};
use sheet::Refusal;

// The line of what was read of a packet: how many octets, or 11.
fn reading(read: Result<Message, Refusal>, packet: &[u8], out: &mut [u8]) -> Result<usize, Refusal>
    ensures { Whole (text_of packet.now (read_said read)) out.old result out.new }
{
    if out.len() < text::length_of(read, packet) {
        return Err(Refusal::NoRoom);
    }
    Ok(text::put(out, 0, read, packet))
}

// The ten values of a message whose names lie in `packet`: how many octets, or 11.
pub fn message(message: Message, packet: &[u8], out: &mut [u8]) -> Result<usize, Refusal>
    ensures { message≡ message packet.now out.old result out.new }
{
    reading(Ok(message), packet, out)
}

// A refusal by its number, whichever: how many octets, or 11. (No `Refusal`, of which there are twelve: `refusal≡` is said of every number.)
pub fn refusal(number: u32, out: &mut [u8]) -> Result<usize, Refusal>
    ensures { refusal≡ number out.old result out.new }
{
    if out.len() < text::refused_length(number) {
        return Err(Refusal::NoRoom);
    }
    Ok(text::put_refused(out, 0, number))
}

// What is printed for a line of the input, under a sheet's numbers: how many octets, or 11.
pub fn line(numbers: Numbers, line: &[u8], out: &mut [u8]) -> Result<usize, Refusal>
    ensures { line≡ numbers line.now out.old result out.new }
{
    let Some(packet) = packet_in(line) else {
        return refusal(Refusal::Size.number(), out);
    };
    let octets = packet.as_slice();
    reading(read_by(numbers, octets), octets, out)
}
