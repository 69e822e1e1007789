// A sheet's numbers, line by line, by the table's bounds and families (document 01, "Call sheet").
ghost use Rattle.std.specs.Prelude.{◌≡◌, ◌↔◌, ℕ, ◌≤◌, ◌<◌, T, length, get_or};
ghost use Rattle.sheet.specs.Table.{number_lines, row_at};
ghost use Rattle.sheet.specs.Judge.{taken};
ghost use Rattle.sheet.specs.Inner.{within, apart};

use super::numbers::{NUMBER_LINES, Numbers};
use super::table::{Rule, rule_of};
use std::ops::Range;

// Whether each line with a number alone is within its bounds. All are looked at: an exit at the first that is not (`all`) makes each call slower.
pub fn are_within(numbers: &Numbers) -> bool
    ensures { T result ↔ ((k : ℕ) → k < number_lines → T (within k (get_or numbers.now k 0))) }
{
    (0..NUMBER_LINES).fold(
        true,
        |good, k| good & rule_of(k).allows(u64::from(numbers[k])),
    )
}

// Whether one of these lines, the first of a sheet, has this number in the family of the line behind them.
pub fn is_taken(earlier: &[u32], n: u32) -> bool
    ensures { result ≡ taken (row_at (length earlier.now)).family n 0 earlier.now }
{
    let Rule { family, eldest, .. } = rule_of(earlier.len());
    (eldest..earlier.len()).any(|j| earlier[j] == n && rule_of(j).family == family)
}

// Whether line k of a sheet of so many lines has a number that is not taken, or is behind them and 0.
fn is_apart(numbers: &Numbers, lines: usize, k: usize) -> bool
    requires { k < length numbers.now }
    ensures { result ≡ apart (row_at k).family lines numbers.now k }
{
    if k < lines {
        !is_taken(&numbers[..k], numbers[k])
    } else {
        numbers[k] == 0
    }
}

// Whether each of these lines is apart so.
pub fn are_apart(numbers: &Numbers, lines: usize, mut of: Range<usize>) -> bool
    requires { of.end ≤ length numbers.now }
    ensures { T result ↔ ((k : ℕ) → k < of.end → of.start ≤ k → T (apart (row_at k).family lines numbers.now k)) }
{
    of.all(|k| is_apart(numbers, lines, k))
}
