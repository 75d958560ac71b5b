ghost use Rattle.plan_rows.specs.Reading.{FileReadable};

use crate::SectionPlaces;

// A file whose rows stand where the places say.
#[derive(Clone, Copy)]
pub struct Sailings<'a> {
    pub file: &'a [u8],
    pub places: SectionPlaces,
    ghost readable: { FileReadable file.now places },
}
