// A view's record as the 64 bytes of a sheet, and the little-endian numbers in bytes.
#![tactic(auto)]

mod bytes;
mod record;

pub use bytes::{float_at, le16, le32, put_number};
pub use record::{RECORD_BYTES, record_from_bytes, record_is_sound, record_of, record_to_bytes};
