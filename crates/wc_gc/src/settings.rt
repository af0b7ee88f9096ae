//! The settings of trimming.

ghost use Rattle.std.specs.Prelude.{◌≤◌};

/// The settings by which an adapter is trimmed.
#[derive(Clone, Copy, Debug)]
pub struct Settings<'a> {
    /// The name by which the main module exports a realloc, if it does.
    pub realloc: Option<&'a str>,
    /// A page of memory has 2 to the power of this bytes.
    pub page_size_log2: u32,
    ghost paged: { page_size_log2 ≤ 16 },
}
