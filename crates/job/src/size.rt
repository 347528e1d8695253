// The sizes of a sheet and of what it is read into, all from the most vertices and the most views.
use plane::MOST_VERTICES;
use record::RECORD_BYTES;

// The bytes of a sheet's header and of a vertex.
pub const HEADER_BYTES: usize = 16;

pub const VERTEX_BYTES: usize = 24;

// The most views of a sheet.
pub(crate) const MOST_VIEWS: usize = 256;

// The bytes of the longest sheet.
pub const SHEET_BYTES: usize = HEADER_BYTES
    + VERTEX_BYTES * MOST_VERTICES
    + RECORD_BYTES * MOST_VIEWS;

// The numbers of the largest outline, and of the longest list of a view.
pub const OUTLINE_NUMBERS: usize = 3 * MOST_VERTICES;

pub const LIST_NUMBERS: usize = 3 * (MOST_VERTICES + 2);

// No part of a sheet's text is longer: a line of at most 56 bytes for each vertex of the longest list, and the line before.
pub const PART_BYTES: usize = 100 + 56 * (MOST_VERTICES + 2);
