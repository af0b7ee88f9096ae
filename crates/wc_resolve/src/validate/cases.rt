//! The rule that variants and enums have cases, and flags labels.

ghost use Rattle.std.specs.Prelude.{◌↔◌, IsTrue};
ghost use Rattle.wc_resolve.specs.Views.{kind_view};
ghost use Rattle.wc_resolve.specs.WellFormed.{HasCases};

use crate::TypeDefKind;

pub(crate) fn has_cases(kind: &TypeDefKind) -> bool
    ensures { IsTrue result ↔ HasCases (kind_view kind.now) }
{
    match kind {
        TypeDefKind::Variant(cases) => !cases.is_empty(),
        TypeDefKind::Enum(cases) => !cases.is_empty(),
        TypeDefKind::Flags(labels) => !labels.is_empty(),
        _ => true,
    }
}
