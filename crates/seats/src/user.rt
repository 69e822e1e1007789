// User IDs (document 01, "Packet": "1 to 60 octets, each 0x21 to 0x7E").
ghost use Rattle.seats.specs.Promises.{visible_end≡, is_user_id≡, name_length≡, has_name≡};

use sheet::WIDTH;

// Where the visible octets at a place end.
pub fn visible_end(text: &[u8], at: usize) -> usize
    ensures { visible_end≡ text.now at result }
{
    let rest = &text[at.min(text.len())..];
    at + rest.iter().take_while(|c| c.is_ascii_graphic()).count()
}

// Whether these octets can be a User ID.
#[tactic(auto, using(crate::proofs::Laws::Words::every_more), unfolding(sheet::specs::Judge::user_id))]
pub fn is_user_id(name: &[u8]) -> bool
    ensures { is_user_id≡ name.now result }
{
    if name.is_empty() || WIDTH < name.len() {
        return false;
    }
    let mut good = true;
    for c in name {
        good = good & c.is_ascii_graphic();
    }
    good
}

// How many octets a row's User ID has: those before its first zero.
pub fn name_length(row: &[u8]) -> usize
    ensures { name_length≡ row.now result }
{
    row.iter().take_while(|c| **c != 0).count()
}

// Whether a row's User ID is this name.
#[tactic(auto, using(crate::proofs::Laws::Words::name_asked))]
pub fn has_name(row: &[u8], name: &[u8]) -> bool
    ensures { has_name≡ row.now name.now result }
{
    row.get(name.len()).copied().unwrap_or(0) == 0 && row.starts_with(name) && !name.contains(&0)
}
