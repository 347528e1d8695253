// A sheet as a whole: its check, and its outline in a lent buffer.
ghost use Rattle.std.specs.Prelude.{◌≡◌, length};
ghost use Rattle.real.specs.Reply.{reply};
ghost use Rattle.job.specs.Sheet as spec;

use crate::header::Sheet;
use crate::size::OUTLINE_NUMBERS;
use real::Refusal;

// How many numbers the outline has, and how many parts the text.
#[derive(Clone, Copy)]
pub struct Opened {
    pub numbers: usize,
    pub parts: usize,
}

impl Sheet<'_> {
    // Checks what follows the header, and decodes the outline.
    fn open(&self, outline: &mut [f64; OUTLINE_NUMBERS]) -> Result<Opened, Refusal>
        ensures { (reply result ≡ spec.open_of self.now.bytes.now) × (outline.new ≡ spec.open_buffer self.now.bytes.now outline.old) }
    {
        if !self.records_are_sound() {
            return Err(Refusal::BadRecord);
        }
        if !self.vertices_are_sound() {
            return Err(Refusal::BadNumber);
        }
        self.decode(outline);
        Ok(Opened {
            numbers: 3 * self.header.vertices,
            parts: self.header.views + 2,
        })
    }
}

// Checks a sheet and decodes its outline into the buffer's start.
pub fn open_sheet(bytes: &[u8], outline: &mut [f64; OUTLINE_NUMBERS]) -> Result<Opened, Refusal>
    ensures { (reply result ≡ spec.open_of bytes.now) × (outline.new ≡ spec.open_buffer bytes.now outline.old) }
{
    Sheet::read(bytes)?.open(outline)
}
