// What the records begin with.

/// The format of messages, and of images that are written.
pub(crate) const FORMAT: u8 = 2;

/// The format of images that once were written, and still are read.
pub(crate) const FORMER_FORMAT: u8 = 1;

/// The tag of images.
pub(crate) const IMAGE: u8 = 9;

// The states of a directory of an image, by what its house keeps of it.
pub(crate) const HELD: u8 = 1;

pub(crate) const GONE: u8 = 2;
