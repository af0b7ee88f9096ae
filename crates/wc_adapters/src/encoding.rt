//! Encodings of texts (component model, Canonical ABI, "string-encoding").

/// The encoding of a core module's texts. `CompactUTF16` is Latin-1 or UTF-16, as each text allows.
#[derive(Clone, Copy, Debug, PartialEq, Eq)]
pub enum StringEncoding {
    UTF8,
    UTF16,
    CompactUTF16,
}
