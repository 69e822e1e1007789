// A packet on a line, in hex (document 01, "Bench program").
#![tactic(auto)]

ghost use Rattle.std.specs.Prelude.{◌≡◌, ◌<◌, T};
ghost use Rattle.octets.specs.Hex.{hex_value, hex_digit};
ghost use Rattle.hex_line.specs.Promises.{packet_in≡, as_slice≡};

// The most octets of a packet.
pub const MOST: usize = 256;

// A packet's octets, zeros behind them, and how many they are: an array and a length, as there is no heap.
#[derive(Clone, Copy)]
pub struct Packet {
    pub octets: [u8; MOST],
    pub len: usize,
}

impl Packet {
    // The octets.
    pub fn as_slice(&self) -> &[u8]
        ensures { as_slice≡ self.now result.now }
    {
        &self.octets[..self.len.min(MOST)]
    }
}

// The value of a digit: its low four bits, and nine more for a letter. `to_digit` asks in turn where a digit may stand, and with it a line took more than
// twice as long.
fn value_of(c: u8) -> u32
    ensures { (T (hex_digit c) → result ≡ hex_value c) × (result < 64) }
{
    let n = c as u32;
    n % 16 + n / 64 * 9
}

// The packet on a line; none where the line is not hex, odd, empty or above 512 digits.
pub fn packet_in(line: &[u8]) -> Option<Packet>
    ensures { packet_in≡ line.now result }
{
    let (pairs, rest) = line.as_chunks::<2>();
    if pairs.is_empty() || MOST < pairs.len() || !rest.is_empty() {
        return None;
    }
    let mut octets = [0u8; MOST];
    let mut right = true;
    for (i, [high, low]) in pairs.iter().enumerate() {
        right &= high.is_ascii_hexdigit() & low.is_ascii_hexdigit();
        octets[i] = ((value_of(*high) * 16 + value_of(*low)) % 256) as u8;
    }
    right.then_some(Packet {
        octets,
        len: pairs.len(),
    })
}
