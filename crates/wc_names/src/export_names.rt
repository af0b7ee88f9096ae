//! Names of exports: of functions of a world and of its interfaces, and of destructors of resources.

ghost use Rattle.std.specs.Prelude.{◌≡◌, ℕ, List, MatchOption, option_copied};
ghost use Rattle.wc_names.specs.ExportNames.{IsExportName, destructor_member, IsNoExportName};
ghost use Rattle.wc_names.specs.Finds.{Finds};

use crate::texts::{before, split_at_first};
use wc_texts::strip_prefix;

/// How the name of a member of an interface, or of the world itself, is put together.
#[derive(Clone, Copy, Debug, PartialEq, Eq)]
pub enum ExportSyntax {
    /// `|my:demo/host@1|hello`, and `||run`.
    Standard,
    /// `my:demo/host@1.2.3#hello`, and `run`.
    Legacy,
}

/// The parts of a name.
#[derive(Clone, Copy)]
pub(crate) struct ExportParts<'a> {
    /// The text of an interface; `None`: of the world itself.
    pub interface: Option<&'a str>,
    /// The name of a function, or what the destructor of a resource is named.
    pub member: &'a str,
}

/// The parts of a name of the standard scheme, with bars.
fn standard_parts(name: &str) -> Option<ExportParts<'_>>
    ensures { MatchOption result (IsNoExportName ExportSyntax.Standard name.now)
        (λ parts. IsExportName ExportSyntax.Standard name.now (option_copied parts.interface)
        parts.member.now) }
{
    let Some(rest) = strip_prefix(name, "|") else {
        return None;
    };
    let Some((text, member)) = split_at_first(rest, '|') else {
        return None;
    };
    if text == "" {
        Some(ExportParts {
            interface: None,
            member,
        })
    } else {
        Some(ExportParts {
            interface: Some(text),
            member,
        })
    }
}

/// The parts of a name of the legacy scheme, with `#` or without.
fn legacy_parts(name: &str) -> ExportParts<'_>
    ensures { IsExportName ExportSyntax.Legacy name.now (option_copied result.interface)
        result.member.now }
{
    match split_at_first(name, '#') {
        Some((text, member)) => ExportParts {
            interface: Some(text),
            member,
        },
        None => ExportParts {
            interface: None,
            member: name,
        },
    }
}

/// The parts of a name.
pub(crate) fn export_parts(syntax: ExportSyntax, name: &str) -> Option<ExportParts<'_>>
    ensures { MatchOption result (IsNoExportName syntax name.now)
        (λ parts. IsExportName syntax name.now (option_copied parts.interface)
        parts.member.now) }
{
    match syntax {
        ExportSyntax::Standard => standard_parts(name),
        ExportSyntax::Legacy => Some(legacy_parts(name)),
    }
}

/// The name of the resource whose destructor a member of an interface is.
pub(crate) fn destructed_resource(syntax: ExportSyntax, member: &str) -> Option<&str>
    ensures { Finds (option_copied result)
        (λ (resource : List ℕ). member.now ≡ destructor_member syntax resource) }
{
    match syntax {
        ExportSyntax::Standard => before(member, "_dtor"),
        ExportSyntax::Legacy => strip_prefix(member, "[dtor]"),
    }
}
