//! A `Resolve`: the worlds, interfaces, types and packages of the component model, each named by
//! its index in its list. `Resolve::build` checks that they are well-formed. A `Resolve` then
//! answers the ids of interfaces, the core signatures of functions (Canonical ABI), which types hold
//! strings or lists, and the live types of worlds and functions.
//!
//! Where an allocation fails the answer is `AllocError`, or the fault `Memory`. A call that names a
//! thing by its id requires that the id is in range.
//!
//! ```rust
//! use std::alloc::Global;
//! use wc_maps::{Map, Seed};
//! use wc_resolve::{
//!     Interface, InterfaceId, Package, PackageId, PackageName, Parts, Resolve, ResolveFault,
//! };
//!
//! /// The id of an interface of a package without a version: `namespace:name/interface`. `seed`: the seed of the maps
//! /// that are made.
//! pub fn interface_id(
//!     alloc: Global,
//!     seed: Seed,
//!     namespace: &str,
//!     name: &str,
//!     interface: &str,
//! ) -> Result<Option<String>, ResolveFault>
//!     ensures { IfOk result (λ id. option_map string_bytes id ≡ Some (namespace.now
//!         ++ (codes ":" ++ (name.now ++ (codes "/" ++ interface.now))))) }
//! {
//!     let package_name = PackageName {
//!         namespace: String::from_str(alloc, namespace)?,
//!         name: String::from_str(alloc, name)?,
//!         version: None,
//!     };
//!     let package = Package {
//!         name: package_name,
//!         interfaces: Map::with_hasher(alloc, seed),
//!     };
//!     let definition = Interface {
//!         name: Some(String::from_str(alloc, interface)?),
//!         types: Map::with_hasher(alloc, seed),
//!         functions: Map::with_hasher(alloc, seed),
//!         package: Some(PackageId(0)),
//!         clone_of: None,
//!     };
//!     let parts = Parts {
//!         worlds: Vec::new(alloc),
//!         interfaces: vec![in alloc; definition]?,
//!         types: Vec::new(alloc),
//!         packages: vec![in alloc; package]?,
//!     };
//!     let resolve = Resolve::build(alloc, parts)?;
//!     Ok(resolve.id_of(alloc, InterfaceId(0))?)
//! }
//! ```
//!
//! This function is proved in `wc_tests`, as `examples::resolve::interface_id`.
#![tactic(auto)]

mod canonical_ids;
mod contents;
mod explain;
mod fault;
mod flat;
mod flattening;
mod functions;
mod futures;
mod ids;
mod interface_ids;
mod kinds;
pub mod laws;
mod live;
mod long_functions;
mod marks;
mod names;
mod packages;
mod resolve;
mod roots;
mod shortcuts;
mod signature;
mod types;
mod validate;
mod walk;
mod worlds;

pub use explain::Part;
pub use fault::ResolveFault;
pub use flat::WasmType;
pub use functions::{AbiVariant, Function, FunctionKind, FunctionPlace};
pub use ids::{InterfaceId, PackageId, TypeId, WorldId};
pub use live::{KnownTypes, LiveTypes};
pub use packages::{Package, PackageName};
pub use resolve::{Parts, RefusedParts, Resolve};
pub use signature::WasmSignature;
pub use types::{Handle, TypeDef, TypeDefKind, TypeOwner, WitType};
pub use worlds::{Interface, World, WorldItem, WorldKey};
