// What a call returns.
ghost use Rattle.std.specs.Prelude.{◌≡◌, ◌<◌};
ghost use Rattle.sheet.specs.Value.{sheet_in};
ghost use Rattle.rows.specs.Lent.{told};
ghost use Rattle.face.specs.Inner.{misfit_of};

use sheet::Refusal;
use sheet::numbers::are_valid;

// 0, or a refusal's number and 256 times its line: a number, as C takes no enum.
pub fn code(done: Result<(), Refusal>) -> u32
    requires { told done < 65536 }
    ensures { result ≡ told done }
{
    match done {
        Ok(()) => 0,
        Err(refusal) => refusal.number() + 256 * refusal.line(),
    }
}

// The refusal of a record, a stream, an event or an attempt that no value stands for; 12 comes before it.
pub fn misfit(sheet: &[u32]) -> Refusal
    ensures { result ≡ misfit_of (sheet_in sheet.now) }
{
    if are_valid(sheet) {
        Refusal::NotLegal
    } else {
        Refusal::Sheet(0)
    }
}
