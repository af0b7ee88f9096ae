//! Packages and their names.

ghost use Rattle.std.specs.Prelude.{◌≡◌, ◌≢◌, ◌<◌, ◌^◌, ℕ, IfNone, IfOk, IfSome, Some, map, slice_get};
ghost use Rattle.wc_resolve.specs.Views.{package_name_view};

use crate::InterfaceId;
use semver::Version;
use std::alloc::{AllocError, Global};
use wc_maps::{Map, Set};

/// The name of a package: `namespace:name`, or `namespace:name@version`. Names are equal where all three are, the build
/// of the version included.
#[derive(PartialEq, Eq, Hash, Drop)]
pub struct PackageName {
    pub namespace: String,
    pub name: String,
    pub version: Option<Version>,
}

/// A package: its name, and its interfaces by their names, in order. `Resolve::build` doesn't check that the `package`
/// of these interfaces is this one.
#[derive(Drop)]
pub struct Package {
    pub name: PackageName,
    pub interfaces: Map<String, InterfaceId>,
}

impl PackageName {
    /// A copy of this name: the same namespace, name and version.
    ///
    /// # Errors
    ///
    /// `AllocError`: an allocation failed.
    pub fn clone(&self, alloc: Global) -> Result<PackageName, AllocError>
        ensures { IfOk result (λ n. package_name_view n ≡ package_name_view self.now) }
    {
        let version = match &self.version {
            Some(version) => Some(version.clone()?),
            None => None,
        };
        Ok(PackageName {
            namespace: String::from_str(alloc, &self.namespace)?,
            name: String::from_str(alloc, &self.name)?,
            version,
        })
    }
}

/// The index of a name, if it is below 2^32.
pub(crate) fn name_index(names: &Set<PackageName>, name: &PackageName) -> Option<u32>
    ensures found { IfSome result (λ index.
        slice_get (map package_name_view names.now.keys) index
        ≡ Some (package_name_view name.now)) }
    ensures none { IfNone result ((index : ℕ) → index < 2 ^ 32 →
        slice_get (map package_name_view names.now.keys) index
        ≢ Some (package_name_view name.now)) }
{
    let index = names.get_index_of(name)?;
    u32::try_from(index).ok()
}
