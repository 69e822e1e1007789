// Big-endian numbers read from a slice at a place and put into one (RFC 3550, 4), and octets put into one.
#![tactic(auto)]

ghost use Rattle.std.specs.Prelude.{◌≡◌, get_or, drop};
ghost use Rattle.octets.specs.Promises.{u16_of≡, u16_at≡, u32_at≡, put_u16≡, put_u32≡, put_octets≡};

// The octet at a place, or 0 past the end.
fn octet_at(s: &[u8], at: usize) -> u8
    ensures { result ≡ get_or s.now at 0 }
{
    s.get(at).copied().unwrap_or(0)
}

// The octets from a place on; none past the end.
fn rest_at(s: &[u8], at: usize) -> &[u8]
    ensures { result.now ≡ drop at s.now }
{
    &s[at.min(s.len())..]
}

// The 16-bit number of two octets.
#[tactic(auto, unfolding(crate::specs::Big::big_at))]
pub fn u16_of(high: u8, low: u8) -> u16
    ensures { u16_of≡ high low result }
{
    u16::from_be_bytes([high, low])
}

// The 16-bit number at a place. An octet past the end counts as 0.
pub fn u16_at(s: &[u8], at: usize) -> u16
    ensures { u16_at≡ s.now at result }
{
    let rest = rest_at(s, at);
    u16_of(octet_at(rest, 0), octet_at(rest, 1))
}

// The 32-bit number at a place. An octet past the end counts as 0. (A function for each width: the library's `from_be_bytes` and `to_be_bytes` are of one
// type each, and no trait has them.)
pub fn u32_at(s: &[u8], at: usize) -> u32
    ensures { u32_at≡ s.now at result }
{
    let rest = rest_at(s, at);
    u32::from_be_bytes([
        octet_at(rest, 0),
        octet_at(rest, 1),
        octet_at(rest, 2),
        octet_at(rest, 3),
    ])
}

// Puts a 16-bit number at a place, or leaves the buffer alone where it does not fit. (A function for each width, as above.)
#[tactic(auto, unfolding(crate::specs::Big::big_of))]
pub fn put_u16(s: &mut [u8], at: usize, n: u16)
    ensures { put_u16≡ s.old at n s.new }
{
    put_octets(s, at, &u16::to_be_bytes(n));
}

// Puts a 32-bit number at a place, or leaves the buffer alone where it does not fit.
#[tactic(auto, using(crate::proofs::Big::four_octets))]
pub fn put_u32(s: &mut [u8], at: usize, n: u32)
    ensures { put_u32≡ s.old at n s.new }
{
    put_octets(s, at, &u32::to_be_bytes(n));
}

// Puts octets at a place, or leaves the buffer alone where they do not fit.
pub fn put_octets(s: &mut [u8], at: usize, octets: &[u8])
    ensures { put_octets≡ s.old at octets.now s.new }
{
    if at <= s.len() && octets.len() <= s.len() - at {
        // (`copy_from_slice` of a length that is not known calls `memmove`: with it a call of C took more than 255 octets of stack.)
        for (i, octet) in octets.iter().enumerate() {
            s[at + i] = *octet;
        }
    }
}
