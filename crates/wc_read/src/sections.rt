//! A module's header, and its sections as frames.

/// The header that a module begins with (WebAssembly core specification, 5.5.16): the magic `\0asm`, and the version 1.
pub const MODULE_HEADER: &[u8] = b"\0asm\x01\0\0\0";

/// A section (WebAssembly core specification, 5.5.2): its id, 0 to 255, and its content as a slice of the module's
/// bytes.
#[derive(Clone, Copy, Debug, PartialEq, Eq)]
pub struct Section<'a> {
    pub id: u8,
    pub content: &'a [u8],
}

/// The sections of a module, in the order of the file (5.5.16).
#[derive(Debug, PartialEq, Eq, Drop)]
pub struct Frames<'a> {
    pub sections: Vec<Section<'a>>,
}
