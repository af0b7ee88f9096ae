//! Packages, and the names of packages.

ghost use Rattle.std.specs.Prelude.{◌≡◌, ◌<◌};
ghost use Rattle.std.specs.Option.{option_map};
ghost use Rattle.semver.specs.Identifiers.{parts_of};
ghost use Rattle.wc_json.specs.Fault.{Reads};
ghost use Rattle.wc_json.specs.Packages.{package_name, version};
ghost use Rattle.wc_texts.specs.Splits.{split_once};
ghost use Rattle.wc_resolve.specs.Views.{package_name_view};

use crate::from_json::FromJson;
use crate::members::required_member;
use crate::paths::fault_here;
use crate::{JsonFault, Problem};
use json::Value;
use semver::{Error, Version};
use std::alloc::{AllocError, Global};
use wc_maps::{Map, Seed};
use wc_resolve::{Package, PackageName, WorldId};

/// The texts before and after the first such character of ASCII.
fn split_once(text: &str, separator: char) -> Option<(&str, &str)>
    requires { separator < 128 }
    ensures { option_map (λ parts. (parts.0.now, parts.1.now)) result
        ≡ split_once separator text.now }
{
    text.split_once(separator)
}

/// Parses a semantic version. A text that is none makes the package's name wrong: NotAPackageName.
fn version(alloc: Global, text: &str) -> Result<Version, JsonFault>
    ensures { Reads parts_of result (version text.now) }
{
    match Version::parse(alloc, text) {
        Ok(version) => Ok(version),
        Err(error) => {
            if error == Error::from(AllocError) {
                Err(JsonFault::Memory)
            } else {
                Err(fault_here(alloc, Problem::NotAPackageName))
            }
        }
    }
}

/// The package's name that a text is: `namespace:name` or `namespace:name@version`.
fn package_name(alloc: Global, text: &str) -> Result<PackageName, JsonFault>
    ensures { Reads package_name_view result (package_name text.now) }
{
    let Some((namespace, rest)) = split_once(text, ':') else {
        return Err(fault_here(alloc, Problem::NotAPackageName));
    };
    let (name, version) = match split_once(rest, '@') {
        Some((name, text)) => (name, Some(version(alloc, text)?)),
        None => (rest, None),
    };
    Ok(PackageName {
        namespace: String::from_str(alloc, namespace)?,
        name: String::from_str(alloc, name)?,
        version,
    })
}

impl FromJson for PackageName {
    ghost use Rattle.wc_resolve.specs.Views.{PackageNameView, package_name_view};
    ghost use Rattle.wc_json.specs.Packages.{package_name_in};

    ghost View = { PackageNameView };

    ghost view = { package_name_view };

    ghost reading = { package_name_in };

    fn from_json(alloc: Global, _seed: Seed, value: &Value<'_>) -> Result<PackageName, JsonFault> {
        match value.as_str() {
            Some(text) => package_name(alloc, text),
            None => Err(fault_here(alloc, Problem::NotAText)),
        }
    }
}

/// A package, and its worlds by their names.
impl FromJson for (Package, Map<String, WorldId>) {
    ghost use Rattle.std.specs.Prelude.{ℕ, List};
    ghost use Rattle.wc_resolve.specs.Views.{PackageView, package_view};
    ghost use Rattle.wc_json.specs.Packages.{package_and_worlds, world_entries};

    ghost View = { PackageView × List (List ℕ × ℕ) };

    ghost view = { λ p. (package_view p.0, world_entries p.1) };

    ghost reading = { package_and_worlds };

    fn from_json(
        alloc: Global,
        seed: Seed,
        value: &Value<'_>,
    ) -> Result<(Package, Map<String, WorldId>), JsonFault> {
        let name = required_member(alloc, seed, value, "name")?;
        let interfaces = required_member(alloc, seed, value, "interfaces")?;
        let worlds = required_member(alloc, seed, value, "worlds")?;
        Ok((Package { name, interfaces }, worlds))
    }
}
