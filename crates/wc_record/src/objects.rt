//! Objects: their brackets, and their members.

ghost use Rattle.std.specs.Prelude.{OnOk, ◌∷◌, [], codes, map};
ghost use Rattle.json.specs.Json.{string};
ghost use Rattle.json.specs.Token.{begin_object, end_object};
ghost use Rattle.wc_texts.specs.Shapes.{array_of};
ghost use Rattle.wc_record.specs.Objects.{Puts, PutsField, PutsJson, object_of_kind, plain_kind};

use crate::to_json::{ToJson, put_list};
use json::Writer;
use std::alloc::AllocError;

/// Writes `{`: the writer's call, with a contract in this crate's words.
pub(crate) fn begin_object(out: &mut Writer) -> Result<(), AllocError>
    ensures { OnOk result (Puts out.old out.new (begin_object ∷ [])) }
{
    out.begin_object()
}

/// Writes `}`: the writer's call, with a contract in this crate's words.
pub(crate) fn end_object(out: &mut Writer) -> Result<(), AllocError>
    ensures { OnOk result (Puts out.old out.new (end_object ∷ [])) }
{
    out.end_object()
}

/// Writes `"NAME": VALUE`.
pub(crate) fn put_member<T: ToJson>(
    out: &mut Writer,
    name: &str,
    value: &T,
) -> Result<(), AllocError>
    ensures { OnOk result (PutsField out.old out.new name.now (T.json (T.view value.now))) }
{
    out.key(name)?;
    value.write(out)
}

/// Writes `"NAME": [..]`, the items in their order.
pub(crate) fn put_list_member<T: ToJson>(
    out: &mut Writer,
    name: &str,
    items: &[T],
) -> Result<(), AllocError>
    ensures { OnOk result (PutsField out.old out.new name.now
        (array_of (map T.json (map T.view items.now)))) }
{
    out.key(name)?;
    put_list(out, items)
}

/// Writes the member that says of which kind an object is.
pub(crate) fn put_kind(out: &mut Writer, kind: &str) -> Result<(), AllocError>
    ensures { OnOk result (PutsField out.old out.new (codes "kind") (string kind.now)) }
{
    out.key("kind")?;
    out.string(kind)
}

/// Writes an object of a kind that has no members besides.
pub(crate) fn put_plain_kind(out: &mut Writer, kind: &str) -> Result<(), AllocError>
    ensures { OnOk result (PutsJson out.old out.new (plain_kind kind.now)) }
{
    begin_object(out)?;
    put_kind(out, kind)?;
    end_object(out)
}

/// Writes an object of a kind that has one member besides.
pub(crate) fn put_kind_with<T: ToJson>(
    out: &mut Writer,
    kind: &str,
    name: &str,
    value: &T,
) -> Result<(), AllocError>
    ensures { OnOk result (PutsJson out.old out.new
        (object_of_kind kind.now ((name.now, T.json (T.view value.now)) ∷ []))) }
{
    begin_object(out)?;
    put_kind(out, kind)?;
    put_member(out, name, value)?;
    end_object(out)
}
