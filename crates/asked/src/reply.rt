// An answer as it is made, from its front on. An octet that has no room is left out.
ghost use Rattle.std.specs.Prelude.{◌≤◌};

use super::MOST;

#[derive(Clone, Copy)]
pub struct Reply {
    octets: [u8; MOST],
    len: usize,
    ghost in_room: { len ≤ 1020 },
}

impl Reply {
    ghost use Rattle.asked.specs.Promises.{empty≡, as_slice≡, octets≡, numbers≡, counts≡};

    pub fn empty() -> Reply
        ensures { empty≡ result }
    {
        Reply {
            octets: [0; MOST],
            len: 0,
        }
    }

    // What is said so far.
    pub fn as_slice(&self) -> &[u8]
        ensures { as_slice≡ self.now result.now }
    {
        &self.octets[..self.len]
    }

    pub fn octets(&mut self, octets: &[u8])
        ensures { octets≡ self.old octets.now self.new }
    {
        let start = self.len;
        let fit = octets.len().min(MOST - start);
        let end = start + fit;
        self.octets[start..end].copy_from_slice(&octets[..fit]);
        self.len = end;
    }

    // Numbers of four octets each.
    pub fn numbers(&mut self, numbers: &[u32])
        ensures { numbers≡ self.old numbers.now self.new }
    {
        for n in numbers {
            self.octets(&n.to_be_bytes());
        }
    }

    // Numbers of eight octets each.
    pub fn counts(&mut self, counts: &[usize])
        ensures { counts≡ self.old counts.now self.new }
    {
        for count in counts {
            self.octets(&count.to_be_bytes());
        }
    }
}
