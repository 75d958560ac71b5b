// Document 01, "The sailing file": rows, a class block and the trailer written into lent bytes.
#![tactic(auto)]

ghost use Rattle.std.specs.Prelude.{[], ◌∷◌, ◌≡◌, ◌+◌, ◌≤◌, length};
ghost use Rattle.std.proofs.lemmas.List.Edits.{sets};
ghost use Rattle.file_encoding.specs.Encode.{row_bytes, tables_bytes, bytes_of_trailer};
ghost use Rattle.file_writing.specs.Ends.{never_late};

use file_layout::Trailer;
use numbers::{put_u16, put_u32};
use timetable::{Row, SHARE_TOTAL};

// A row's bytes from `at` on.
pub fn put_row(out: &mut [u8], at: usize, row: Row)
    requires { at + 12 ≤ length out.old }
    ensures { out.new ≡ sets out.old at (row_bytes row) }
{
    put_u16(row.board, at, out);
    put_u16(row.land, at + 2, out);
    put_u16(row.departure, at + 4, out);
    put_u16(row.arrival, at + 6, out);
    put_u16(row.trip, at + 8, out);
    put_u16(row.class, at + 10, out);
}

// The one class block of a file in which nothing is late, from `at` on.
pub fn put_never_late(out: &mut [u8], at: usize)
    requires { at + 4 ≤ length out.old }
    ensures { out.new ≡ sets out.old at (tables_bytes (never_late ∷ [])) }
{
    put_u16(0, at, out);
    put_u16(SHARE_TOTAL, at + 2, out);
}

// The trailer's bytes from `at` on.
pub fn put_trailer(out: &mut [u8], at: usize, trailer: Trailer)
    requires { at + 16 ≤ length out.old }
    ensures { out.new ≡ sets out.old at (bytes_of_trailer trailer) }
{
    put_u16(trailer.version, at, out);
    put_u16(trailer.stops, at + 2, out);
    put_u16(trailer.rows, at + 4, out);
    put_u16(trailer.classes, at + 6, out);
    put_u32(trailer.rowstart, at + 8, out);
    put_u32(trailer.tablestart, at + 12, out);
}
