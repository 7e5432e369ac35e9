//! How much of a message is taken. These are this project's own limits, which HTTP leaves open (RFC 9110, 5.4;
//! RFC 9112, 7.1.1).

/// So many fields a head has at most, and so many a trailer.
pub(crate) const MAX_FIELDS: usize = 64;

/// So many bytes a head has at most.
pub(crate) const MAX_HEAD: usize = 65_536;

/// So many bytes the line before a chunk has at most, and so many a trailer.
pub(crate) const MAX_PART: usize = 65_536;

/// So many bytes the body of a message has at most. Chunks' lines and trailers aren't among them.
pub const MAX_BODY: u64 = 20_971_520;
