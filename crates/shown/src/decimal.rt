// Numbers in decimal (document 01, "Bench program": "numbers in decimal").
ghost use Rattle.std.specs.Prelude.{◌≡◌, ◌+◌, ◌≤◌, [], ◌∷◌, ◌++◌, length};
ghost use Rattle.octets.specs.Text.{decimal};
ghost use Rattle.sheet_line.specs.Line.{lf};
ghost use Rattle.shown.specs.Promises.{Put};

use super::LF;

// How many digits a number has.
pub fn length_of(n: u32) -> usize
    ensures { (result ≡ length (decimal n)) × (result ≤ 10) }
{
    n.max(1).ilog10() as usize + 1
}

// Puts a number at a place, and gives the place past it.
pub fn put(out: &mut [u8], at: usize, n: u32) -> usize
    requires { at + length (decimal n) ≤ length out.old }
    ensures { Put (decimal n) out.old at result out.new }
{
    let digits = length_of(n);
    let mut left = n;
    for i in (0..digits).rev() {
        out[at + i] = b'0' + (left % 10) as u8;
        left /= 10;
    }
    at + digits
}

// Puts a name, a number and LF at a place, and gives the place past them.
pub fn put_line(out: &mut [u8], at: usize, name: &[u8], n: u32) -> usize
    requires { at + length (name.now ++ (decimal n ++ (lf ∷ []))) ≤ length out.old }
    ensures { Put (name.now ++ (decimal n ++ (lf ∷ []))) out.old at result out.new }
{
    octets::put_octets(out, at, name);
    let end = put(out, at + name.len(), n);
    out[end] = LF;
    end + 1
}
