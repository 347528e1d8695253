// A sheet's header, its first 16 bytes, and a sheet with a good one.
ghost use Rattle.std.specs.Prelude.{◌≡◌, ◌≤◌, ◌+◌, ◌*◌, true, length};
ghost use Rattle.real.specs.Refusal.{bad_sheet};
ghost use Rattle.real.specs.Reply.{given, check, reply_by};
ghost use Rattle.plane.specs.Range.{most_vertices};
ghost use Rattle.record.specs.Layout.{record_size};
ghost use Rattle.job.specs.Header as spec;

use crate::size::{HEADER_BYTES, MOST_VIEWS, VERTEX_BYTES};
use plane::MOST_VERTICES;
use real::Refusal;
use record::{RECORD_BYTES, le16, le32};

#[derive(Clone, Copy)]
pub struct Header {
    pub version: usize,
    pub flags: usize,
    pub vertices: usize,
    pub views: usize,
    pub vertex_offset: usize,
    pub view_offset: usize,
}

impl Header {
    // What the first bytes say.
    fn of(bytes: &[u8]) -> Header
        ensures { result ≡ spec.header_value bytes.now }
    {
        Header {
            version: le16(bytes, 0),
            flags: le16(bytes, 2),
            vertices: le16(bytes, 4),
            views: le16(bytes, 6),
            vertex_offset: le32(bytes, 8),
            view_offset: le32(bytes, 12),
        }
    }

    // Whether the version, the flags, the counts and the offsets are good, and fit the sheet's length.
    #[tactic(auto, unfolding(crate::specs::Header::header_under))]
    fn fits(self, length: usize) -> bool
        ensures { result ≡ spec.header_fits_of self length }
    {
        self.version == 1
            && self.flags < 4
            && self.vertices <= MOST_VERTICES
            && self.views <= MOST_VIEWS
            && self.vertex_offset == HEADER_BYTES
            && self.view_offset == HEADER_BYTES + VERTEX_BYTES * self.vertices
            && length == self.view_offset + RECORD_BYTES * self.views
    }

    pub(crate) fn is_closed(self) -> bool
        ensures { result ≡ spec.closed self }
    {
        self.flags & 1 == 1
    }

    // Whether a stored sheet has the retired flag.
    pub(crate) fn is_retired(self) -> bool
        ensures { result ≡ spec.retired self }
    {
        self.flags >> 1 & 1 == 1
    }
}

// A sheet with a good header.
#[derive(Clone, Copy)]
pub(crate) struct Sheet<'a> {
    pub(crate) bytes: &'a [u8],
    pub(crate) header: Header,
    ghost is: { header ≡ spec.header_value bytes.now },
    ghost good: { spec.header_good bytes.now ≡ true },
    ghost vertices: { header.vertices ≤ most_vertices },
    ghost views: { header.views ≤ spec.most_views },
    ghost offset: { header.view_offset ≡ spec.header_size + spec.vertex_size * header.vertices },
    ghost size: { length bytes.now ≡ header.view_offset + record_size * header.views },
}

impl<'a> Sheet<'a> {
    // The sheet that the bytes are, if their header is good.
    pub(crate) fn read(bytes: &'a [u8]) -> Result<Sheet<'a>, Refusal>
        ensures { reply_by (λ sheet. sheet.bytes) result ≡ check (spec.header_good bytes.now) bad_sheet (given bytes.entry) }
    {
        let header = Header::of(bytes);
        if !header.fits(bytes.len()) {
            return Err(Refusal::BadSheet);
        }
        Ok(Sheet { bytes, header })
    }
}
