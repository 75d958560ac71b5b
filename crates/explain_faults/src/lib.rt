// For the office: why the check refuses, and what to look at, in a sentence or two.
#![tactic(auto)]

ghost use Rattle.std.specs.Prelude.{◌<◌};
ghost use Rattle.file_layout.specs.Format.{Readable};

mod broken;
mod classes;
mod rows;
mod sizes;

use broken::BrokenFile;
pub use broken::row_in;
use file_layout::Format;
use files::Output;
use timetable::Refusal;

// The reason for a refusal of the check of a file of a version; `more` says that the file goes on beyond these bytes.
pub fn print_file_fault(out: &Output, file: &[u8], f: Format, refusal: Refusal<usize>, more: bool)
    requires { Readable f × (f.lastminute < 65536) }
{
    let broken = BrokenFile::of(file, f);
    let place = refusal.place;
    // by document 01's own numbers, which its theorems and the sheet speak of
    match refusal.number {
        1 => sizes::print_size_fault(out, broken, more),
        2 => classes::print_layout_fault(out, broken),
        3 => classes::print_class_fault(out, broken, place),
        4 => rows::print_own_fault(out, broken, place),
        _ => rows::print_order_fault(out, broken, place),
    }
}
