//! The world that is encoded.

ghost use Rattle.std.specs.Prelude.{◌≡◌, ◌<◌, ◌↔◌, All, IfErr, IfOk, IsTrue, length, string_bytes};
ghost use Rattle.std.specs.Option.{option_map};
ghost use Rattle.semver.specs.Identifiers.{parts_text};
ghost use Rattle.wc_json.specs.Document.{document_view};
ghost use Rattle.wc_resolve.specs.Resolve.{joined_id, member_text};
ghost use Rattle.wc_resolve.specs.Views.{package_name_view};
ghost use Rattle.wc_selection.specs.Worlds.{ArePackagesIn, IsOnly, IsOnlyCause, IsPackageIn, IsSelected, IsWorldCause, is_full_name, is_named, is_short_name, package_name_of, world_name, worlds_named};

use crate::fault::RequestFault;
use std::alloc::{AllocError, Global};
use wc_json::Document;
use wc_resolve::{PackageId, PackageName, WorldId};

/// The forms of a world's name.
#[derive(Clone, Copy, PartialEq, Eq)]
enum NameForm {
    /// `namespace:package/world`, with `@version` if the package has one.
    Full,
    /// `world`, or `namespace:package/world` without a version.
    Short,
}

/// The world of a document that a text names. The text is the world's full name, `namespace:package/world` with
/// `@version` if the package has one; or, if no world has this full name, the name `world` or
/// `namespace:package/world` without a version. The package of a world is the package that the world itself names.
///
/// # Errors
///
/// - `PackageRange`: a world names a package that does not exist. It comes before all others.
/// - `UnknownWorld`: no world has this name, or none below index 2^32.
/// - `SeveralWorlds`: several worlds have it.
/// - `Memory`: an allocation failed.
pub fn select_world<'a>(
    alloc: Global,
    document: &Document,
    name: &'a str,
) -> Result<WorldId, RequestFault<'a>>
    ensures selected { IfOk result (λ id. IsSelected (document_view document.now) name.now id.0) }
    ensures fault { IfErr result (IsWorldCause (document_view document.now) name.now) }
{
    if !are_packages_in(document) {
        return Err(RequestFault::PackageRange);
    }
    let full = worlds_named(alloc, document, NameForm::Full, name)?;
    if !full.is_empty() {
        return only_world(&full, name);
    }
    let short = worlds_named(alloc, document, NameForm::Short, name)?;
    only_world(&short, name)
}

/// The full name of the world at an index: `namespace:package/world`, with `@version` if the package has one. It is
/// the world's own name if it names no package, or one that does not exist.
///
/// # Errors
///
/// `AllocError`: an allocation failed.
pub fn world_name(alloc: Global, document: &Document, index: usize) -> Result<String, AllocError>
    requires { index < length (document_view document.now).parts.worlds }
    ensures { IfOk result (λ text. string_bytes text
        ≡ world_name (document_view document.now) index) }
{
    let world = document.parts.worlds[index].name.as_str();
    match package_name_of(document, index) {
        Some(package) => full_name(alloc, package, world),
        None => String::from_str(alloc, world),
    }
}

/// Whether the packages that worlds name exist.
fn are_packages_in(document: &Document) -> bool
    ensures { IsTrue result ↔ ArePackagesIn (document_view document.now) }
{
    are_ids_in(&document.world_packages, document.parts.packages.len())
}

/// Whether the package ids among these are less than this number.
fn are_ids_in(ids: &[Option<PackageId>], count: usize) -> bool
    ensures { IsTrue result ↔ All (λ id. IsPackageIn count (option_map (λ i. i.0) id)) ids.now }
{
    ids.iter().all(|id| is_package_in(*id, count))
}

/// Whether the id of a package, if present, is less than a number.
#[tactic(auto, unfolding(crate::specs::Worlds::IsPackageIn))]
fn is_package_in(id: Option<PackageId>, count: usize) -> bool
    ensures { IsTrue result ↔ IsPackageIn count (option_map (λ i. i.0) id) }
{
    match id {
        Some(id) => (id.0 as usize) < count,
        None => true,
    }
}

/// The id of the only index.
fn only_world<'a>(indices: &[usize], name: &'a str) -> Result<WorldId, RequestFault<'a>>
    ensures only { IfOk result (λ id. IsOnly indices.now id.0) }
    ensures fault { IfErr result (IsOnlyCause indices.now name.now) }
{
    match indices {
        [index] => match u32::try_from(*index) {
            Ok(index) => Ok(WorldId(index)),
            Err(_) => Err(RequestFault::UnknownWorld(name)),
        },
        [] => Err(RequestFault::UnknownWorld(name)),
        _ => Err(RequestFault::SeveralWorlds(name)),
    }
}

/// The indices of the worlds that have a name in this form, in order.
fn worlds_named(
    alloc: Global,
    document: &Document,
    form: NameForm,
    name: &str,
) -> Result<Vec<usize>, AllocError>
    ensures { IfOk result (λ v. v.items
        ≡ worlds_named (document_view document.now) form name.now) }
{
    let mut indices = Vec::new(alloc);
    for index in 0..document.parts.worlds.len() {
        if is_named(alloc, document, form, name, index)? {
            indices.push(index)?;
        }
    }
    Ok(indices)
}

/// Whether the world at an index has a name in this form.
fn is_named(
    alloc: Global,
    document: &Document,
    form: NameForm,
    name: &str,
    index: usize,
) -> Result<bool, AllocError>
    requires { index < length (document_view document.now).parts.worlds }
    ensures { IfOk result (λ b. b ≡ is_named (document_view document.now) form name.now index) }
{
    let world = document.parts.worlds[index].name.as_str();
    let Some(package) = package_name_of(document, index) else {
        return Ok(form == NameForm::Short && world == name);
    };
    match form {
        NameForm::Full => is_full_name(alloc, package, world, name),
        NameForm::Short => is_short_name(alloc, package, world, name),
    }
}

/// The name of the package that the world at an index says to be of.
fn package_name_of(document: &Document, index: usize) -> Option<&PackageName>
    ensures { option_map (λ n. package_name_view n.now) result
        ≡ package_name_of (document_view document.now) index }
{
    let id = (*document.world_packages.get(index)?)?;
    let package = document.parts.packages.get(id.0 as usize)?;
    Some(&package.name)
}

/// Whether a text is the full name of a world of this package.
fn is_full_name(
    alloc: Global,
    package: &PackageName,
    world: &str,
    name: &str,
) -> Result<bool, AllocError>
    ensures { IfOk result (λ b. b
        ≡ is_full_name (package_name_view «package».now) world.now name.now) }
{
    let full = full_name(alloc, package, world)?;
    Ok(full.as_str() == name)
}

/// Whether a text is the name of a world of this package, by itself or after the package's without a version.
fn is_short_name(
    alloc: Global,
    package: &PackageName,
    world: &str,
    name: &str,
) -> Result<bool, AllocError>
    ensures { IfOk result (λ b. b
        ≡ is_short_name (package_name_view «package».now) world.now name.now) }
{
    if world == name {
        return Ok(true);
    }
    let unversioned = unversioned_name(
        alloc,
        package.namespace.as_str(),
        package.name.as_str(),
        world,
    )?;
    Ok(unversioned.as_str() == name)
}

/// `namespace:package/world`, with `@version` if the package has one.
fn full_name(alloc: Global, package: &PackageName, world: &str) -> Result<String, AllocError>
    ensures { IfOk result (λ text. string_bytes text
        ≡ member_text parts_text (package_name_view «package».now) world.now) }
{
    let (namespace, name) = (package.namespace.as_str(), package.name.as_str());
    match &package.version {
        Some(version) => format!(in alloc; "{namespace}:{name}/{world}@{version}"),
        None => unversioned_name(alloc, namespace, name, world),
    }
}

/// `namespace:package/world`.
fn unversioned_name(
    alloc: Global,
    namespace: &str,
    name: &str,
    world: &str,
) -> Result<String, AllocError>
    ensures { IfOk result (λ text. string_bytes text
        ≡ joined_id namespace.now name.now world.now) }
{
    format!(in alloc; "{namespace}:{name}/{world}")
}
