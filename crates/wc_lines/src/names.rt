//! Names out of the arguments of a row.

use crate::rows::Row;
use crate::seeds::row_seed;
use std::alloc::{AllocError, Global};
use wc_maps::Set;

/// The arguments of a row from the index `first` on, each once.
pub fn names_from(alloc: Global, row: &Row<'_>, first: usize) -> Result<Set<String>, AllocError> {
    let mut names = Set::with_hasher(alloc, row_seed());
    for name in row.arguments.iter().skip(first) {
        let name = String::from_str(alloc, name)?;
        names.insert(name)?;
    }
    Ok(names)
}
