// What the lines of a sheet may say, as a table (document 01, "Call sheet"). A later line with a number is a row more,
// before that of a seat's line.
ghost use Rattle.std.specs.Prelude.{◌≡◌};
ghost use Rattle.sheet.specs.Inner.{RuleOf, between};

// The least and the greatest number on a line; its family, of which no two lines have the same number, and a line before
// which none is of it.
#[derive(Clone, Copy)]
pub struct Rule {
    pub least: u64,
    pub greatest: u64,
    pub family: u8,
    pub eldest: usize,
}

// The rule of line k, counted from 0.
#[tactic(auto, using(crate::proofs::Laws::Rules::rule_at), unfolding(crate::proofs::Laws::Rules::right, crate::proofs::Laws::Rules::other, crate::specs::Table::row_at, crate::specs::Table::table))]
pub fn rule_of(k: usize) -> Rule
    ensures { RuleOf k result }
{
    let (least, greatest, family, eldest) = match k {
        0 => (0, 4294967295, 0, 0), // server
        1 => (1, 8, 1, 1), // limit
        2 => (0, 15, 2, 2), // request
        3 => (0, 15, 3, 3), // response
        4 => (0, 15, 4, 4), // endrequest
        5 => (0, 15, 4, 4), // endresponse
        6 => (0, 15, 4, 4), // txend
        7 => (0, 15, 4, 4), // txendresponse
        8 => (0, 15, 4, 4), // ack
        9 => (15, 191, 5, 9), // resultid
        10 => (1, 8, 6, 10), // seats
        _ => (0, 4294967295, 7, 11), // seat
    };
    Rule {
        least,
        greatest,
        family,
        eldest,
    }
}

impl Rule {
    // Whether a number is within its bounds.
    pub fn allows(self, n: u64) -> bool
        ensures { result ≡ between self.least self.greatest n }
    {
        (self.least..=self.greatest).contains(&n)
    }
}
