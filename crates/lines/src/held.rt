// Octets that are kept from piece to piece: the sheet's text, or a line so far.
ghost use Rattle.lines.specs.Promises.{none≡, as_slice≡, with≡};

// The most octets that are held: as many as decide a sheet, and more than the digits of a packet.
pub const MOST: usize = 1024;

// The octets, zeros behind them, and how many they are: an array and a length, as there is no heap.
#[derive(Clone, Copy)]
pub struct Held {
    pub octets: [u8; MOST],
    pub len: usize,
}

impl Held {
    // The octets that are held.
    pub fn as_slice(&self) -> &[u8]
        ensures { as_slice≡ self.now result.now }
    {
        &self.octets[..self.len.min(MOST)]
    }
}

// Nothing held.
pub fn none() -> Held
    ensures { none≡ result }
{
    Held {
        octets: [0; MOST],
        len: 0,
    }
}

// What is held and more behind it, as far as so many octets, and as the most that are held.
pub fn with(held: Held, more: &[u8], most: usize) -> Held
    ensures { with≡ held more.now most result }
{
    let old = held.as_slice();
    let all = most.min(MOST);
    let n = old.len().min(all);
    let m = more.len().min(all - n);
    let mut octets = [0u8; MOST];
    octets::put_octets(&mut octets, 0, &old[..n]);
    octets::put_octets(&mut octets, n, &more[..m]);
    Held { octets, len: n + m }
}
