// The records in a sheet's bytes, after the outline.
ghost use Rattle.std.specs.Prelude.{◌≡◌, ◌<◌};
ghost use Rattle.job.specs.Sheet as spec;

use crate::header::Sheet;
use record::{RECORD_BYTES, record_is_sound};

impl<'a> Sheet<'a> {
    // The bytes of record k.
    pub(crate) fn record(&self, k: usize) -> &'a [u8]
        requires { k < self.now.header.views }
        ensures { result.now ≡ spec.record_at_of self.now.bytes.now k }
    {
        let at = self.header.view_offset + RECORD_BYTES * k;
        &self.bytes[at..at + RECORD_BYTES]
    }

    // Whether each record's fields are sound.
    pub(crate) fn records_are_sound(&self) -> bool
        ensures { result ≡ spec.records_ok self.now.bytes.now }
    {
        (0..self.header.views).all(|k| record_is_sound(self.record(k)))
    }
}
