//! Names of exports.

ghost use Rattle.std.specs.Prelude.{◌≡◌, ◌≢◌, ◌↔◌, map, IfOk, IfErr, IsTrue, AllPairs};
ghost use Rattle.wc_read.specs.Reading.Exports.{export_names, NeighboursDiffer};

use crate::exports::Export;
use crate::fault::ReadFault;
use std::alloc::{AllocError, Global};

/// Whether no two exports have one name (WebAssembly core specification, 3.4.10). The names are sorted, so that equal
/// ones are neighbours.
pub fn have_distinct_names(alloc: Global, exports: &[Export]) -> Result<bool, ReadFault>
    ensures distinct { IfOk result (λ b. IsTrue b ↔ AllPairs (λ x y. x ≢ y)
        (export_names exports.now)) }
    ensures memory { IfErr result (λ e. e ≡ ReadFault.Memory) }
{
    let mut names = names_of(alloc, exports)?;
    names.sort()?;
    Ok(do_neighbours_differ(&names))
}

fn names_of<'a>(alloc: Global, exports: &[Export<'a>]) -> Result<Vec<&'a str>, AllocError>
    ensures { IfOk result (λ v. v.items ≡ map (λ e. e.name) exports.now) }
{
    let mut names = Vec::with_capacity(alloc, exports.len())?;
    for export in exports {
        names.push(export.name)?;
    }
    Ok(names)
}

/// Whether each name differs from the next one.
fn do_neighbours_differ(names: &[&str]) -> bool
    ensures { IsTrue result ↔ NeighboursDiffer names.now }
{
    for index in 1..names.len() {
        if names[index - 1] == names[index] {
            return false;
        }
    }
    true
}
