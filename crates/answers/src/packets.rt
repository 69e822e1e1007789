// Octets behind their count, two octets. They end with the octets that they stand in.
ghost use Rattle.std.specs.Prelude.{◌≤◌, IfSome, length};

use super::part::first;

// The octets behind the count at the front, and what stands behind them.
pub fn counted(octets: &[u8]) -> Option<(&[u8], &[u8])>
    ensures { IfSome result (λ r. length r.0.now ≤ 65535) }
{
    let (count, rest) = octets.split_first_chunk::<2>()?;
    let length = usize::from(u16::from_be_bytes(*count));
    Some(rest.split_at(length.min(rest.len())))
}

// Packets, one after another, each behind its count.
#[derive(Clone, Copy)]
pub struct Packets<'a> {
    pub rest: &'a [u8],
}

impl<'a> Iterator for Packets<'a> {
    type Item = &'a [u8];

    fn next(&mut self) -> Option<&'a [u8]> {
        let (packet, rest) = counted(self.rest)?;
        self.rest = rest;
        Some(packet)
    }
}
