// One number of a sheet, by the table's bounds and families (document 01, "Call sheet").
ghost use Rattle.sheet.specs.Promises.{is_good_number≡};

use super::line::is_taken;
use super::table::rule_of;

// Whether a number may stand on the line behind these, the first of a sheet.
pub fn is_good_number(earlier: &[u32], n: u64) -> bool
    ensures { is_good_number≡ earlier.now n result }
{
    rule_of(earlier.len()).allows(n) && !is_taken(earlier, n as u32)
}
