// What is printed for a line of the input, and for a refused sheet (document 01, "Bench program"), at a place of a buffer.
ghost use Rattle.shown.specs.Promises.{put≡, put_sheet≡};

use super::{TIMES, decimal, text};
use hex_line::packet_in;
use packet::{Numbers, read_by};
use sheet::Refusal;

const SHEET: [u8; 6] = *b"sheet=";

// Puts the line for a line at a place, and gives the place past it. Where not ten octets for each of the line and its LF stand behind the place,
// nothing is put.
pub fn put(out: &mut [u8], at: usize, numbers: Numbers, line: &[u8]) -> usize
    ensures { put≡ numbers line.now out.old at result out.new }
{
    if out.len().saturating_sub(at) / TIMES <= line.len() {
        return at;
    }
    let Some(packet) = packet_in(line) else {
        return text::put_refused(out, at, Refusal::Size.number());
    };
    let octets = packet.as_slice();
    text::put(out, at, read_by(numbers, octets), octets)
}

// Puts the line for a sheet that is refused by its line of this number at a place, and gives the place past it. Where it does not fit, nothing
// is put.
pub fn put_sheet(out: &mut [u8], at: usize, line: u32) -> usize
    ensures { put_sheet≡ line out.old at result out.new }
{
    let name = SHEET;
    if out.len().saturating_sub(at) < name.len() + decimal::length_of(line) + 1 {
        return at;
    }
    decimal::put_line(out, at, &name, line)
}
