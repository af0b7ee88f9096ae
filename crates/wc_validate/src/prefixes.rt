//! The prefixes of names.

/// The prefix of names that are always read by the standard scheme.
pub(crate) const STANDARD_MARKER: &str = "cm32p2";
