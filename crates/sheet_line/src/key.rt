// The keys of a sheet's lines, as a table (document 01, "Call sheet"). A later line with a number is a row more, before that of a seat's line.
ghost use Rattle.std.specs.Prelude.{◌≡◌};
ghost use Rattle.sheet.specs.Table.{row_at};

// The key of line k, counted from 0.
#[tactic(auto, unfolding(sheet::specs::Table::row_at, sheet::specs::Table::table, sheet::specs::Table::seat_row))]
pub fn key_of(k: usize) -> &'static [u8]
    ensures { result.now ≡ (row_at k).key }
{
    match k {
        0 => b"server=",
        1 => b"limit=",
        2 => b"request=",
        3 => b"response=",
        4 => b"endrequest=",
        5 => b"endresponse=",
        6 => b"txend=",
        7 => b"txendresponse=",
        8 => b"ack=",
        9 => b"resultid=",
        10 => b"seats=",
        _ => b"seat=",
    }
}
