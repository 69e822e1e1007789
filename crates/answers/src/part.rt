// Parts of the octets of a case; empty where these end before.

// The octets from a place on.
pub fn behind(octets: &[u8], from: usize) -> &[u8] {
    octets.get(from..).unwrap_or_default()
}

// The first octets, all where there are not so many.
pub fn first(octets: &[u8], n: usize) -> &[u8] {
    &octets[..n.min(octets.len())]
}
