//! An example of `wc_resolve`.

ghost use Rattle.std.specs.Prelude.{◌≡◌, ◌++◌, codes, IfOk, Some, string_bytes};
ghost use Rattle.std.specs.Option.{option_map};

use std::alloc::Global;
use wc_maps::{Map, Seed};
use wc_resolve::{
    Interface, InterfaceId, Package, PackageId, PackageName, Parts, Resolve, ResolveFault,
};

/// The id of an interface of a package without a version: `namespace:name/interface`. `seed`: the seed of the maps that
/// are made, which a program draws by `Seed::drawn(&rt)`.
pub(crate) fn interface_id(
    alloc: Global,
    seed: Seed,
    namespace: &str,
    name: &str,
    interface: &str,
) -> Result<Option<String>, ResolveFault>
    ensures { IfOk result (λ id. option_map string_bytes id ≡ Some (namespace.now
        ++ (codes ":" ++ (name.now ++ (codes "/" ++ interface.now))))) }
{
    let package_name = PackageName {
        namespace: String::from_str(alloc, namespace)?,
        name: String::from_str(alloc, name)?,
        version: None,
    };
    let package = Package {
        name: package_name,
        interfaces: Map::with_hasher(alloc, seed),
    };
    let definition = Interface {
        name: Some(String::from_str(alloc, interface)?),
        types: Map::with_hasher(alloc, seed),
        functions: Map::with_hasher(alloc, seed),
        package: Some(PackageId(0)),
        clone_of: None,
    };
    let parts = Parts {
        worlds: Vec::new(alloc),
        interfaces: vec![in alloc; definition]?,
        types: Vec::new(alloc),
        packages: vec![in alloc; package]?,
    };
    let resolve = Resolve::build(alloc, parts)?;
    Ok(resolve.id_of(alloc, InterfaceId(0))?)
}
