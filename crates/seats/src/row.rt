// Whether two rows of User IDs are the same.
ghost use Rattle.std.specs.Prelude.{◌≡◌, length};
ghost use Rattle.octets.specs.Choice.{same};

use sheet::WIDTH;

// Whether as many octets are the same. No pair ends the loop, so that many are compared at once.
#[tactic(auto, using(crate::proofs::Laws::Words::same_more))]
fn is_same(a: &[u8], b: &[u8]) -> bool
    requires { length a.now ≡ length b.now }
    ensures { result ≡ same a.now b.now }
{
    let mut alike = true;
    for (x, y) in a.iter().zip(b) {
        alike = alike & (x == y);
    }
    alike
}

// So many octets are enough to tell most rows apart.
const MOSTLY: usize = 32;

// Whether two rows are the same. `==` of arrays and `contains` of the rows were tried: are_valid_with takes longer with either.
pub fn is_same_row(a: &[u8; WIDTH], b: &[u8; WIDTH]) -> bool
    ensures { result ≡ same a.now b.now }
{
    is_same(&a[..MOSTLY], &b[..MOSTLY]) && is_same(a, b)
}
