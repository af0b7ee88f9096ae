//! The ids of interfaces, as names have them (component model, "Import and Export Definitions").

ghost use Rattle.std.specs.Prelude.{◌≡◌, IfOk, string_bytes};
ghost use Rattle.semver.specs.Identifiers.{parts_text};
ghost use Rattle.wc_resolve.specs.Names.{track};
ghost use Rattle.wc_resolve.specs.Resolve.{joined_id, member_text};
ghost use Rattle.wc_resolve.specs.Views.{package_name_view};

use crate::PackageName;
use std::alloc::{AllocError, Global};

/// `namespace:package/name`.
fn plain_member_id(
    alloc: Global,
    namespace: &str,
    member: &str,
    name: &str,
) -> Result<String, AllocError>
    ensures { IfOk result (λ text. string_bytes text ≡
        joined_id namespace.now member.now name.now) }
{
    format!(in alloc; "{namespace}:{member}/{name}")
}

/// `namespace:package/name`, with `@version` where the package has one.
pub(crate) fn member_id(
    alloc: Global,
    package: &PackageName,
    name: &str,
) -> Result<String, AllocError>
    ensures { IfOk result (λ text. string_bytes text ≡
        member_text parts_text (package_name_view «package».now) name.now) }
{
    let (namespace, member) = (package.namespace.as_str(), package.name.as_str());
    match &package.version {
        Some(version) => format!(in alloc; "{namespace}:{member}/{name}@{version}"),
        None => plain_member_id(alloc, namespace, member, name),
    }
}

/// `namespace:package/name`, with `@` and the version's track where the package has a version.
pub(crate) fn canonical_member_id(
    alloc: Global,
    package: &PackageName,
    name: &str,
) -> Result<String, AllocError>
    ensures { IfOk result (λ text. string_bytes text ≡
        member_text track (package_name_view «package».now) name.now) }
{
    let (namespace, member) = (package.namespace.as_str(), package.name.as_str());
    match &package.version {
        Some(version) => {
            let track = PackageName::version_compat_track(alloc, version)?;
            format!(in alloc; "{namespace}:{member}/{name}@{track}")
        }
        None => plain_member_id(alloc, namespace, member, name),
    }
}
