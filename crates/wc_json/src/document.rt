//! The document: what a whole text has.

ghost use Rattle.std.specs.Prelude.{◌≡◌, IfErr, IfOk, map};
ghost use Rattle.json.specs.Json.{document};
ghost use Rattle.json.specs.Value.{value_view};
ghost use Rattle.wc_json.specs.Document.{IsJsonCause, IsDocument, document_of, document_view};
ghost use Rattle.wc_json.specs.Fault.{Reads};

use crate::JsonFault;
use crate::from_json::{FromJson, value_from_json};
use crate::members::required_member;
use json::Value;
use std::alloc::{AllocError, Global};
use wc_maps::{Map, Seed};
use wc_resolve::{Package, PackageId, Parts, World, WorldId};

/// The content of a text: the parts of a `Resolve`, and which package each world is of, which has no place
/// in them. A world is found as `namespace:package/world` by the package's name in
/// `parts.packages`, at whose index `package_worlds` has the world's id.
#[derive(Drop)]
pub struct Document {
    /// The worlds, interfaces, types and packages, each in the order of the text. They are as the
    /// text has them: `Resolve::build` judges them.
    pub parts: Parts,
    /// The package that each world says to be of, in the order of `parts.worlds`. Nothing says that
    /// an id is in range, or that it agrees with `package_worlds`.
    pub world_packages: Vec<Option<PackageId>>,
    /// The worlds that each package lists by their names, in the order of `parts.packages`. Nothing
    /// says that an id is in range.
    pub package_worlds: Vec<Map<String, WorldId>>,
}

/// Splits pairs into two lists, each in their order.
fn unzip<A: Drop, B: Drop>(
    alloc: Global,
    pairs: Vec<(A, B)>,
) -> Result<(Vec<A>, Vec<B>), AllocError>
    ensures first { IfOk result (λ lists. lists.0.items ≡ map (λ p. p.0) pairs.items) }
    ensures second { IfOk result (λ lists. lists.1.items ≡ map (λ p. p.1) pairs.items) }
{
    let mut first = Vec::with_capacity(alloc, pairs.len())?;
    let mut second = Vec::with_capacity(alloc, pairs.len())?;
    for pair in pairs {
        let (a, b) = pair;
        first.push(a)?;
        second.push(b)?;
    }
    Ok((first, second))
}

/// Reads the members `worlds`, `interfaces`, `types` and `packages` of an object in this order. The
/// first that is wrong is the fault.
fn document_of(alloc: Global, seed: Seed, value: &Value<'_>) -> Result<Document, JsonFault>
    ensures { Reads document_view result (document_of (value_view value.now)) }
{
    let worlds: Vec<(World, Option<PackageId>)> = required_member(alloc, seed, value, "worlds")?;
    let interfaces = required_member(alloc, seed, value, "interfaces")?;
    let types = required_member(alloc, seed, value, "types")?;
    let packages: Vec<(Package, Map<String, WorldId>)> = required_member(
        alloc, seed, value, "packages",
    )?;
    let (worlds, world_packages) = unzip(alloc, worlds)?;
    let (packages, package_worlds) = unzip(alloc, packages)?;
    Ok(Document {
        parts: Parts {
            worlds,
            interfaces,
            types,
            packages,
        },
        world_packages,
        package_worlds,
    })
}

impl FromJson for Document {
    ghost use Rattle.wc_json.specs.Document.{DocumentView, document_of, document_view};

    ghost View = { DocumentView };

    ghost view = { document_view };

    ghost reading = { document_of };

    fn from_json(alloc: Global, seed: Seed, value: &Value<'_>) -> Result<Document, JsonFault> {
        document_of(alloc, seed, value)
    }
}

/// Reads a resolved world from JSON: the serde form of wit-parser's `Resolve`, as
/// `wasm-tools component wit --json` prints it. It is an object with the lists `worlds`,
/// `interfaces`, `types` and `packages`; the crate's page says more. Reading ends on any text, and
/// needs no more of the stack than 128 nested values do. `seed`: the seed of the maps that are made.
///
/// # Errors
///
/// - `NotJson`: the text is not JSON (RFC 8259), or it nests deeper than 128.
/// - `RepeatedMember`: an object has two members of one name, also one that would be passed over.
/// - `Wrong`: a value isn't what the format asks for; the path leads to it. Of several such values
///   that one is named which comes first, where lists and maps go by their order, and the members of
///   an object by the order in which the definitions (`specs/`) name them.
/// - `Memory`: an allocation failed. It may come in place of any other.
pub fn document_from_json(alloc: Global, seed: Seed, text: &str) -> Result<Document, JsonFault>
    ensures ok { IfOk result (IsDocument (document text.now)) }
    ensures fault { IfErr result (IsJsonCause (document text.now)) }
{
    value_from_json(alloc, seed, text)
}
