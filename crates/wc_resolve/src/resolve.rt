//! Worlds, interfaces, types and packages that are well-formed, and the calls on them.

ghost use Rattle.std.specs.Prelude.{◌≡◌, ◌↔◌, ◌<◌, false, All, IfErr, IfNone, IfOk, IfSome, IsTrue, OnOk, Some, length, slice_get, string_bytes};
ghost use Rattle.std.specs.Option.{IsSome, option_map};
ghost use Rattle.semver.specs.Identifiers.{parts_text};
ghost use Rattle.wc_resolve.specs.Contents.{holds_string, holds_string_or_list};
ghost use Rattle.wc_resolve.specs.Views.{function_view, interface_view, item_view, key_view, package_name_view, package_view, type_view, world_view};
ghost use Rattle.wc_resolve.specs.Dependencies.{AddsDependencies, aliased_at, dependency, direct_dependencies, id_of_interface, interface_ids, other_owner};
ghost use Rattle.wc_resolve.specs.Fault.{IsResolveCause};
ghost use Rattle.wc_resolve.specs.Flat.{AreFlattened, flat_of, flat_rule, lists};
ghost use Rattle.wc_resolve.specs.TypeRules.{Follows};
ghost use Rattle.wc_resolve.specs.Futures.{IsFuturesEntry, entry_view, futures_of, futures_rule};
ghost use Rattle.wc_resolve.specs.Laws.{FlatTypesUnique, FuturesUnique, ListingsUnique, TextsFollow, TextsUnique};
ghost use Rattle.wc_resolve.specs.Live.{listing_of, listing_rule};
ghost use Rattle.wc_resolve.specs.LongFunctions.{IsLongFunction, function_at_place};
ghost use Rattle.wc_resolve.specs.ResolveParts.{parts_view};
ghost use Rattle.wc_resolve.specs.Resolve.{HasNoPackage, IsPackageAt, canonical_id, external_id, full_id, if_named, implemented, key_text, qualified_name};
ghost use Rattle.wc_resolve.specs.Ranges.{AreNamesIn, IsItemIn, IsKeyIn};
ghost use Rattle.wc_resolve.specs.Refusals.{IsRefusal};
ghost use Rattle.wc_resolve.specs.Roots.{id_index};
ghost use Rattle.wc_resolve.specs.Shortcuts.{IsShortcut};
ghost use Rattle.wc_resolve.specs.Signature.{flatten_functype, signature_view};
ghost use Rattle.wc_resolve.specs.WellFormed.{IsUsable, IsWellFormed};

use crate::canonical_ids::is_canonical_member_id;
use crate::contents::type_has_text;
use crate::futures::FuturesEntry;
use crate::interface_ids::{canonical_member_id, member_id};
use crate::long_functions::{LongFunction, function_of};
use crate::packages::name_index;
use crate::shortcuts::{Shortcut, shortcut_of};
use crate::signature::signature_of;
use crate::validate::resources::is_usable;
use crate::validate::{Tables, check};
use crate::{
    AbiVariant, Function, FunctionPlace, Interface, InterfaceId, Package, PackageId, PackageName,
    Part, ResolveFault, TypeDef, TypeDefKind, TypeId, TypeOwner, WasmSignature, WasmType, WitType,
    World, WorldId, WorldItem, WorldKey,
};
use std::alloc::{AllocError, Global};
use std::marker::Model;
use wc_texts::Refused;

/// Parts that are not well-formed, and why.
#[derive(Drop)]
pub struct RefusedParts {
    pub parts: Parts,
    pub refusal: Refused<ResolveFault, Part>,
}

/// Worlds, interfaces, types and packages that are well-formed, as `Resolve::build` checks. They can't be changed. The
/// id of each is its index in its list of `Parts`.
#[derive(Drop)]
pub struct Resolve {
    parts: Parts,
    kept: Tables,
}

/// The parts of a `Resolve`: worlds, interfaces, types and packages. The id of each is its index in its list.
#[derive(Drop)]
pub struct Parts {
    pub worlds: Vec<World>,
    pub interfaces: Vec<Interface>,
    pub types: Vec<TypeDef>,
    pub packages: Vec<Package>,
}

impl Model for Resolve {
    ghost use Rattle.wc_resolve.specs.Kinds.{ResolveView};

    ghost Value = { ResolveView };

    ghost use Rattle.wc_resolve.specs.ResolveParts.{parts_view};
    ghost use Rattle.wc_resolve.specs.Validate.{AreTables};

    ghost view = { λ r. parts_view r.parts };

    ghost invariant = { λ r. AreTables (parts_view r.parts) r.kept };
}

impl Resolve {
    /// The `Resolve` of these parts, if they are well-formed. A call that fails drops them.
    ///
    /// # Errors
    ///
    /// Of several causes, the first in this order is named; `Memory` may come in place of any. `ResolveFault` has each
    /// in full.
    ///
    /// - `IdRange`: an id is not in range.
    /// - `Cycle`: a type refers to itself, directly or through others.
    /// - `Unnamed`: a resource has no name, or an interface in a key or in a package has no name or no package.
    /// - `KeyMismatch`: a key is not that of its item, or a function, a type, or an interface of a package is listed
    ///   under another name than its own.
    /// - `NameClash`: two packages have the same name and version.
    /// - `BadCharacter`: a name is empty, or has a character that it can't have.
    /// - `ByValueResource`: a parameter, result, field, item, element or payload is a resource.
    /// - `Empty`: a variant or an enum has no cases, or flags have no labels.
    /// - `Memory`: an allocation failed.
    pub fn build(alloc: Global, parts: Parts) -> Result<Resolve, ResolveFault>
        ensures ok { IfOk result (λ r. r ≡ parts_view parts) }
        ensures formed { IfOk result IsWellFormed }
        ensures fault { IfErr result (IsResolveCause (parts_view parts)) }
    {
        match check(alloc, &parts) {
            Ok(kept) => Ok(Resolve { parts, kept }),
            Err(refusal) => Err(refusal.fault),
        }
    }

    /// As [`Resolve::build`]; but a call that fails says what its fault is about, and gives the parts back.
    ///
    /// # Errors
    ///
    /// As those of `build`.
    pub fn build_explained(alloc: Global, parts: Parts) -> Result<Resolve, RefusedParts>
        ensures ok { IfOk result (λ r. r ≡ parts_view parts) }
        ensures formed { IfOk result IsWellFormed }
        ensures given_back { IfErr result (λ e. e.parts ≡ parts) }
        ensures refusal { IfErr result (λ e. IsRefusal (parts_view parts) e.refusal) }
    {
        match check(alloc, &parts) {
            Ok(kept) => Ok(Resolve { parts, kept }),
            Err(refusal) => Err(RefusedParts { parts, refusal }),
        }
    }

    /// States that the parts are well-formed, for proofs of callers. It does nothing when it runs.
    pub fn well_formedness(&self)
        ensures { IsWellFormed self.now }
    {
        let _ = &self.kept;
    }

    /// Whether there is a world at this index.
    pub fn has_world(&self, id: WorldId) -> bool
        ensures { IsTrue result ↔ (id.0 < length self.now.worlds) }
    {
        (id.0 as usize) < self.parts.worlds.len()
    }

    /// Whether there is an interface at this index.
    pub fn has_interface(&self, id: InterfaceId) -> bool
        ensures { IsTrue result ↔ (id.0 < length self.now.interfaces) }
    {
        (id.0 as usize) < self.parts.interfaces.len()
    }

    /// Whether there is a type at this index.
    pub fn has_type(&self, id: TypeId) -> bool
        ensures { IsTrue result ↔ (id.0 < length self.now.types) }
    {
        (id.0 as usize) < self.parts.types.len()
    }

    /// Whether there is a package at this index.
    pub fn has_package(&self, id: PackageId) -> bool
        ensures { IsTrue result ↔ (id.0 < length self.now.packages) }
    {
        (id.0 as usize) < self.parts.packages.len()
    }

    /// Whether a function is usable with this `Resolve`: the ids of its types, and of the resource that its kind
    /// names, are in range, and no parameter and no result is a resource or an alias of one. It need not be listed in
    /// an interface or a world.
    pub fn has_function(&self, function: &Function) -> bool
        ensures { IsTrue result ↔ IsUsable self.now (function_view function.now) }
    {
        is_usable(&self.parts.types, &self.kept.resources, function)
    }

    /// States that the listing of each type (see `LiveTypes`) is the listings of the types that it refers to, in order,
    /// and after them the type itself; and that no other lists follow this rule. For proofs of callers; it does nothing
    /// when it runs.
    pub fn listings_unique(&self)
        ensures made { Follows listing_rule self.now.types (listing_of self.now.types) }
        ensures alone { ListingsUnique self.now.types }
    {
        let _ = &self.kept;
    }

    /// States that the futures and streams of each type are those of the types that it contains by value, in order, or
    /// of its target where it is an alias, and after them the type itself where it is one; and that no other lists
    /// follow this rule. For proofs of callers; it does nothing when it runs.
    pub fn futures_unique(&self)
        ensures made { Follows futures_rule self.now.types (futures_of self.now.types) }
        ensures alone { FuturesUnique self.now.types }
    {
        let _ = &self.kept;
    }

    /// The entry of the type at this index: its futures and streams, as they are kept.
    pub(crate) fn futures_entry(&self, id: TypeId) -> &FuturesEntry
        requires { id.0 < length self.now.types }
        ensures { IsFuturesEntry self.now.types id.0 (entry_view result.now) }
    {
        &self.kept.futures.entries[id.0 as usize]
    }

    /// The shortcut of a type to one below it, if it has one.
    pub(crate) fn shortcut(&self, id: TypeId) -> Option<Shortcut>
        ensures { IfSome result (IsShortcut self.now.types id.0) }
    {
        shortcut_of(&self.kept.futures.shortcuts, id)
    }

    /// For each type its flat types, as many as are kept.
    pub(crate) fn flats(&self) -> &[Vec<WasmType>]
        ensures { AreFlattened self.now.types (lists result.now) }
    {
        &self.kept.flats
    }

    /// The caches of the functions that have more than a few parameters.
    pub(crate) fn long_functions(&self) -> &[LongFunction]
        ensures { All (IsLongFunction self.now) result.now }
    {
        &self.kept.futures.long_functions
    }

    /// The function at a place, if there is one.
    pub(crate) fn function_at(&self, place: FunctionPlace) -> Option<&Function>
        ensures { option_map (λ f. function_view f.now) result ≡ function_at_place self.now place }
    {
        function_of(&self.parts, place)
    }

    /// States that the flat types of each type are those of the Canonical ABI ("Flattening"), by the flat types of the
    /// types that it refers to; and that no other lists follow this rule. For proofs of callers; it does nothing when
    /// it runs.
    pub fn flat_types_unique(&self)
        ensures made { Follows flat_rule self.now.types (flat_of self.now.types) }
        ensures alone { FlatTypesUnique self.now.types }
    {
        let _ = &self.kept;
    }

    /// States that a type holds strings where it is one, or one of the types that it contains by value, or its target
    /// where it is an alias, holds some, and so of strings or lists, but that a list holds these too; and that no other
    /// answers follow this rule. For proofs of callers; it does nothing when it runs.
    pub fn texts_unique(&self)
        ensures made { TextsFollow self.now.types }
        ensures alone { TextsUnique self.now.types }
    {
        let _ = &self.kept;
    }

    /// Whether a type holds a string: it is one, or one of the types that it contains by value, or its target where it
    /// is an alias, holds one. Payloads of futures and streams count, resources of handles not. A type that is not in
    /// range holds none. Nothing is allocated: `build` finds it for all types.
    pub fn holds_string(&self, ty: WitType) -> bool
        ensures { result ≡ holds_string self.now ty }
    {
        type_has_text(&self.kept.strings, ty)
    }

    /// Whether a type holds a string or a list: it is one, or holds one as `holds_string` says. A type that is not in
    /// range holds none. Nothing is allocated.
    pub fn holds_string_or_list(&self, ty: WitType) -> bool
        ensures { result ≡ holds_string_or_list self.now ty }
    {
        type_has_text(&self.kept.texts, ty)
    }

    /// The core signature of a function that a guest imports or exports (component model, Canonical ABI, "Flattening",
    /// `flatten_functype`).
    ///
    /// - Parameters are their flat types, in order. More than 16, of an asynchronous import more than 4, are passed
    ///   indirectly, by one `Pointer`; else the first one of an exported method is a `Pointer` where it is an `I32`.
    /// - A synchronous function returns the flat type of its result. If there are more than one, the result is passed
    ///   indirectly: an import has a `Pointer` to it as its last parameter, and an export returns one.
    /// - An asynchronous import returns an `I32`; if it has a result, its last parameter is a `Pointer` to that. An
    ///   asynchronous export with a callback returns an `I32`, a stackful one nothing.
    ///
    /// The function must be usable (`has_function`).
    ///
    /// # Errors
    ///
    /// `AllocError`: an allocation failed.
    pub fn wasm_signature(
        &self,
        alloc: Global,
        abi: AbiVariant,
        function: &Function,
    ) -> Result<WasmSignature, AllocError>
        requires { IsUsable self.now (function_view function.now) }
        ensures { IfOk result (λ s. signature_view s ≡
            flatten_functype (flat_of self.now.types) abi (function_view function.now)) }
    {
        signature_of(alloc, &self.kept.flats, abi, function)
    }

    /// The world at this index, which must be in range (`has_world`).
    pub fn world(&self, id: WorldId) -> &World
        requires { id.0 < length self.now.worlds }
        ensures { slice_get self.now.worlds id.0 ≡ Some (world_view result.now) }
    {
        &self.parts.worlds[id.0 as usize]
    }

    /// The interface at this index, which must be in range (`has_interface`).
    pub fn interface(&self, id: InterfaceId) -> &Interface
        requires { id.0 < length self.now.interfaces }
        ensures { slice_get self.now.interfaces id.0 ≡ Some (interface_view result.now) }
    {
        &self.parts.interfaces[id.0 as usize]
    }

    /// The type at this index, which must be in range (`has_type`).
    pub fn type_def(&self, id: TypeId) -> &TypeDef
        requires { id.0 < length self.now.types }
        ensures { slice_get self.now.types id.0 ≡ Some (type_view result.now) }
    {
        &self.parts.types[id.0 as usize]
    }

    /// The package at this index, which must be in range (`has_package`).
    pub fn package(&self, id: PackageId) -> &Package
        requires { id.0 < length self.now.packages }
        ensures { slice_get self.now.packages id.0 ≡ Some (package_view result.now) }
    {
        &self.parts.packages[id.0 as usize]
    }

    /// A copy of an interface item's `external_id`; `None` if it has none, and for functions and types. The key makes
    /// no difference.
    ///
    /// # Errors
    ///
    /// `AllocError`: an allocation failed.
    pub fn external_id_value(
        &self,
        alloc: Global,
        _key: &WorldKey,
        item: &WorldItem,
    ) -> Result<Option<String>, AllocError>
        ensures { IfOk result (λ id. option_map string_bytes id ≡
            external_id (item_view item.now)) }
    {
        match item {
            WorldItem::Interface { external_id, .. } => match external_id {
                Some(id) => Ok(Some(String::from_str(alloc, id)?)),
                None => Ok(None),
            },
            WorldItem::Function(_) | WorldItem::TypeItem { .. } => Ok(None),
        }
    }

    /// The id of an interface (component model, "Import and Export Definitions"): `namespace:package/name`, and after
    /// it `@version`, build included, if its package has a version: `my:demo/host@1.2.3`. `None` for an interface
    /// without a name or without a package.
    ///
    /// The index must be in range (`has_interface`).
    ///
    /// # Errors
    ///
    /// `AllocError`: an allocation failed.
    pub fn id_of(&self, alloc: Global, id: InterfaceId) -> Result<Option<String>, AllocError>
        requires { id.0 < length self.now.interfaces }
        ensures { IfOk result (λ text. option_map string_bytes text ≡ full_id self.now id.0) }
    {
        match self.qualified_name(id) {
            Some((package, name)) => Ok(Some(member_id(alloc, package, name)?)),
            None => Ok(None),
        }
    }

    /// The id of an interface as `id_of` has it, but with the track of the version
    /// (`PackageName::version_compat_track`) for the version: `my:demo/host@1`.
    ///
    /// The index must be in range (`has_interface`).
    ///
    /// # Errors
    ///
    /// `AllocError`: an allocation failed.
    pub fn canonicalized_id_of(
        &self,
        alloc: Global,
        id: InterfaceId,
    ) -> Result<Option<String>, AllocError>
        requires { id.0 < length self.now.interfaces }
        ensures { IfOk result
            (λ text. option_map string_bytes text ≡ canonical_id self.now id.0) }
    {
        match self.qualified_name(id) {
            Some((package, name)) => Ok(Some(canonical_member_id(alloc, package, name)?)),
            None => Ok(None),
        }
    }

    /// Whether a text is the id that `canonicalized_id_of` has for an interface. Nothing is allocated: the text is
    /// compared piece by piece. An interface without a name or without a package has no id.
    ///
    /// The index must be in range (`has_interface`).
    pub fn is_canonical_id(&self, id: InterfaceId, text: &str) -> bool
        requires { id.0 < length self.now.interfaces }
        ensures { IsTrue result ↔ (canonical_id self.now id.0 ≡ Some text.now) }
    {
        match self.qualified_name(id) {
            Some((package, name)) => is_canonical_member_id(text, package, name),
            None => false,
        }
    }

    /// The name of an interface's package, and the interface's own name, of which its id is made. `None` for an
    /// interface without a name or without a package.
    ///
    /// The index must be in range (`has_interface`).
    pub fn qualified_name(&self, id: InterfaceId) -> Option<(&PackageName, &str)>
        requires { id.0 < length self.now.interfaces }
        ensures { option_map (λ m. (package_name_view m.0.now, m.1.now)) result
            ≡ qualified_name self.now id.0 }
    {
        self.well_formedness();
        let interface = self.interface(id);
        match &interface.name {
            None => None,
            Some(name) => match interface.package {
                None => None,
                Some(index) => Some((&self.package(index).name, name)),
            },
        }
    }

    /// The text of a key: a plain name, or the id of an interface (`id_of`).
    ///
    /// An interface must be in range (`has_interface`) and have an id. Each interface that is a key of a world has one.
    ///
    /// # Errors
    ///
    /// `AllocError`: an allocation failed.
    pub fn name_world_key(&self, alloc: Global, key: &WorldKey) -> Result<String, AllocError>
        requires there { IsKeyIn self.now (key_view key.now) }
        requires named { IsSome (key_text parts_text self.now (key_view key.now)) }
        ensures { IfOk result (λ text.
            key_text parts_text self.now (key_view key.now) ≡ Some (string_bytes text)) }
    {
        match key {
            WorldKey::Name(name) => String::from_str(alloc, name),
            WorldKey::Interface(id) => match self.id_of(alloc, *id)? {
                Some(text) => Ok(text),
                None => unreachable!(),
            },
        }
    }

    /// The interface that an item implements: the interface that it is, if its key is a plain name and the interface
    /// has a name of its own. `None` for all other items.
    ///
    /// The ids of the item must be in range (`has_interface`, `has_type`, `has_function`).
    pub fn implements_interface(&self, key: &WorldKey, item: &WorldItem) -> Option<InterfaceId>
        requires { IsItemIn self.now (item_view item.now) }
        ensures { option_map id_of_interface result ≡
            implemented self.now (key_view key.now) (item_view item.now) }
    {
        match key {
            WorldKey::Interface(_) => None,
            WorldKey::Name(_) => match item {
                WorldItem::Interface { id, .. } => self.named_interface(*id),
                WorldItem::Function(_) | WorldItem::TypeItem { .. } => None,
            },
        }
    }

    /// The interface, if it has a name.
    fn named_interface(&self, id: InterfaceId) -> Option<InterfaceId>
        requires { id.0 < length self.now.interfaces }
        ensures { option_map id_of_interface result ≡ if_named self.now id.0 }
    {
        match &self.interface(id).name {
            Some(_) => Some(id),
            None => None,
        }
    }

    /// The index of the package with this namespace, this name and exactly this version, build included. `None` if no
    /// package below index 2^32 has them.
    pub fn package_named(&self, name: &PackageName) -> Option<PackageId>
        ensures found { IfSome result (λ id.
            IsPackageAt self.now.packages (package_name_view name.now) id.0) }
        ensures none { IfNone result (HasNoPackage self.now.packages (package_name_view name.now)) }
    {
        let index = name_index(&self.kept.package_names, name)?;
        Some(PackageId(index))
    }

    /// The interfaces on which an interface depends directly: for each of its types that is an alias, the interface
    /// that owns the target, if it is another one. They are in the order of the types, each as often as it occurs.
    ///
    /// The index must be in range (`has_interface`).
    ///
    /// # Errors
    ///
    /// `AllocError`: an allocation failed.
    pub fn interface_direct_deps(
        &self,
        alloc: Global,
        id: InterfaceId,
    ) -> Result<Vec<InterfaceId>, AllocError>
        requires { id.0 < length self.now.interfaces }
        ensures { IfOk result (λ v. interface_ids v.items ≡ direct_dependencies self.now id.0) }
    {
        self.well_formedness();
        let mut owners = Vec::new(alloc);
        self.push_dependencies(id, self.interface(id), &mut owners)?;
        Ok(owners)
    }

    fn push_dependencies(
        &self,
        id: InterfaceId,
        interface: &Interface,
        owners: &mut Vec<InterfaceId>,
    ) -> Result<(), AllocError>
        requires { AreNamesIn self.now (interface_view interface.now) }
        ensures { OnOk result (AddsDependencies self.now id.0 (interface_view interface.now)
            owners.old.items owners.new.items) }
    {
        for (_name, ty) in interface.types.iter() {
            if let Some(owner) = self.dependency(id, *ty) {
                owners.push(owner)?;
            }
        }
        Ok(())
    }

    /// The defined type of which a type is an alias.
    fn alias_target(&self, ty: TypeId) -> Option<TypeId>
        requires { ty.0 < length self.now.types }
        ensures { option_map id_index result ≡ aliased_at self.now ty.0 }
    {
        match self.type_def(ty).kind {
            TypeDefKind::Alias(WitType::Id(target)) => Some(target),
            _ => None,
        }
    }

    /// The interface that owns a type, if it is another one than this.
    fn other_owner(&self, id: InterfaceId, ty: TypeId) -> Option<InterfaceId>
        requires { ty.0 < length self.now.types }
        ensures { option_map id_of_interface result ≡ other_owner self.now id.0 ty.0 }
    {
        match self.type_def(ty).owner {
            TypeOwner::Interface(owner) => { if owner == id { None } else { Some(owner) } }
            TypeOwner::World(_) | TypeOwner::None => None,
        }
    }

    /// The interface that owns the type of which a type is an alias, if it is another one.
    fn dependency(&self, id: InterfaceId, ty: TypeId) -> Option<InterfaceId>
        requires { ty.0 < length self.now.types }
        ensures { option_map id_of_interface result ≡ dependency self.now id.0 ty.0 }
    {
        self.well_formedness();
        match self.alias_target(ty) {
            Some(target) => self.other_owner(id, target),
            None => None,
        }
    }
}
