//! The part of worlds that are not well-formed which a fault is about.

ghost use Rattle.std.specs.Prelude.{◌≡◌, IfOk, Some, string_bytes};
ghost use Rattle.std.specs.Option.{option_map};
ghost use Rattle.wc_resolve.specs.ResolveParts.{parts_view};
ghost use Rattle.wc_resolve.specs.Views.{package_name_view};
ghost use Rattle.wcplan_inputs.specs.ExplainedPart.{declared_name, package_text, part_name};
ghost use Rattle.wcplan_inputs.specs.Private.Causes.{IsExplainedPlace, IsOfFault, IsOfRefused};

use crate::fault::ProgramFault;
use std::alloc::{AllocError, Global};
use std::fmt;
use wc_resolve::{PackageName, Part, Parts, RefusedParts, ResolveFault};
use wc_texts::Refused;

/// The part that a fault of worlds is about: a world, an interface, a type or a package.
#[derive(Debug, Drop)]
pub struct ExplainedPart {
    /// The part, by its index in its list.
    pub part: Part,
    /// Its name; that of a package with its namespace, and with its version if it has one. `None` for an interface or a
    /// type without a name.
    pub name: Option<String>,
}

impl fmt::Display for ExplainedPart {
    ghost use Rattle.wcplan_inputs.specs.ExplainedPart.{part_text};

    ghost output = { λ x. Some (part_text x.part (option_map string_bytes x.name)) };

    /// The path of the part in the JSON text of the worlds, and its name in quotation marks, if it has one:
    /// `interfaces[3] "host"`. The name is printed as it is.
    fn fmt<W: fmt::Write>(&self, f: &mut fmt::Formatter<W>) -> fmt::Result {
        let path = PartPath(self.part);
        match &self.name {
            Some(name) => write!(f, "{path} \"{name}\""),
            None => write!(f, "{path}"),
        }
    }
}

/// A part, as its path is printed.
#[derive(Clone, Copy)]
pub(crate) struct PartPath(pub(crate) Part);

impl fmt::Display for PartPath {
    ghost use Rattle.wcplan_inputs.specs.ExplainedPart.{path_text};

    ghost output = { λ path. Some (path_text path.0) };

    fn fmt<W: fmt::Write>(&self, f: &mut fmt::Formatter<W>) -> fmt::Result {
        match self.0 {
            Part::World(index) => write!(f, "worlds[{index}]"),
            Part::Interface(index) => write!(f, "interfaces[{index}]"),
            Part::TypeDef(index) => write!(f, "types[{index}]"),
            Part::Package(index) => write!(f, "packages[{index}]"),
        }
    }
}

/// The program's fault for parts that `Resolve::build_explained` refused, with the part that it is about; `Memory` if
/// an allocation for the part's name failed.
pub(crate) fn resolve_fault<'a>(alloc: Global, refused: RefusedParts) -> ProgramFault<'a>
    ensures { IsOfRefused (parts_view refused.parts) refused.refusal result }
{
    let RefusedParts { parts, refusal } = refused;
    fault_about(alloc, &parts, refusal.fault, refusal.place)
}

/// The program's fault for this fault of parts, with the part that it is about.
fn fault_about<'a>(
    alloc: Global,
    parts: &Parts,
    fault: ResolveFault,
    place: Option<Part>,
) -> ProgramFault<'a>
    ensures { IsOfFault (parts_view parts.now) fault place result }
{
    if let ResolveFault::Memory = fault {
        return ProgramFault::Memory;
    }
    match explained(alloc, parts, place) {
        Ok(place) => ProgramFault::Resolve(Refused { fault, place }),
        Err(AllocError) => ProgramFault::Memory,
    }
}

/// The part that a fault is about, with its name; `None` if it is about none.
fn explained(
    alloc: Global,
    parts: &Parts,
    place: Option<Part>,
) -> Result<Option<ExplainedPart>, AllocError>
    ensures { IfOk result (IsExplainedPlace (parts_view parts.now) place) }
{
    match place {
        Some(part) => {
            let name = part_name(alloc, parts, part)?;
            Ok(Some(ExplainedPart { part, name }))
        }
        None => Ok(None),
    }
}

/// The name of a part, if it has one.
fn part_name(alloc: Global, parts: &Parts, part: Part) -> Result<Option<String>, AllocError>
    ensures { IfOk result (λ name. option_map string_bytes name
        ≡ part_name (parts_view parts.now) part) }
{
    match part {
        Part::Package(index) => match parts.packages.get(index) {
            Some(package) => Ok(Some(package_text(alloc, &package.name)?)),
            None => Ok(None),
        },
        _ => match declared_name(parts, part) {
            Some(name) => Ok(Some(String::from_str(alloc, name)?)),
            None => Ok(None),
        },
    }
}

/// The name of a world, an interface or a type.
fn declared_name(parts: &Parts, part: Part) -> Option<&str>
    ensures { option_map (λ t. t.now) result ≡ declared_name (parts_view parts.now) part }
{
    match part {
        Part::World(index) => Some(parts.worlds.get(index)?.name.as_str()),
        Part::Interface(index) => parts.interfaces.get(index)?.name.as_deref(),
        Part::TypeDef(index) => parts.types.get(index)?.name.as_deref(),
        Part::Package(_) => None,
    }
}

/// `namespace:name`, with `@version` if the package has one.
fn package_text(alloc: Global, package: &PackageName) -> Result<String, AllocError>
    ensures { IfOk result (λ text. string_bytes text
        ≡ package_text (package_name_view «package».now)) }
{
    let (namespace, name) = (package.namespace.as_str(), package.name.as_str());
    match &package.version {
        Some(version) => format!(in alloc; "{namespace}:{name}@{version}"),
        None => format!(in alloc; "{namespace}:{name}"),
    }
}
