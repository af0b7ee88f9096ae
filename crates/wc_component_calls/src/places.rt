//! The places of faults, as JSON.

ghost use Rattle.std.specs.Prelude.{◌≡◌, ◌∷◌, IfOk, OnOk, codes, map, string_bytes};
ghost use Rattle.json.specs.Json.{string};
ghost use Rattle.json.specs.Token.{key};
ghost use Rattle.json.specs.Tree.{json_tokens};
ghost use Rattle.wc_texts.specs.Shapes.{array_of};
ghost use Rattle.wc_record.specs.Texts.{text_of};
ghost use Rattle.wc_why_text.specs.Private.Tokens.{Puts};
ghost use Rattle.wc_component_calls.specs.ComponentFault.{fault_place};
ghost use Rattle.wc_component_calls.specs.Places.{imports_json};

use crate::component_fault::ComponentFault;
use json::Writer;
use std::alloc::{AllocError, Global};
use wc_why_text::{begin_object, end_object, put_text};

/// The place of a fault, as JSON. For a key that requests no import it is an object with `kind`, which is `imports`;
/// `key`; and `imports`, the list of the texts of all imports of the world. For other faults it is empty.
pub(crate) fn place_text(alloc: Global, fault: &ComponentFault) -> Result<Vec<u8>, AllocError>
    ensures { IfOk result (λ v. v.items ≡ fault_place fault.now) }
{
    match fault {
        ComponentFault::UnknownImport(key, imports) => imports_text(alloc, key, imports),
        _ => Ok(Vec::new(alloc)),
    }
}

/// A key that requests no import, and the imports of the world.
fn imports_text(alloc: Global, key: &str, imports: &[String]) -> Result<Vec<u8>, AllocError>
    ensures { IfOk result (λ v. v.items
        ≡ text_of (imports_json key.now (map string_bytes imports.now))) }
{
    let mut out = Writer::new(Vec::new(alloc));
    put_imports(&mut out, key, imports)?;
    Ok(out.into_inner())
}

/// Writes a key that requests no import, and the imports of the world.
fn put_imports(out: &mut Writer, key: &str, imports: &[String]) -> Result<(), AllocError>
    ensures { OnOk result (Puts out.old out.new
        (json_tokens (imports_json key.now (map string_bytes imports.now)))) }
{
    begin_object(out)?;
    put_text(out, "kind", "imports")?;
    put_text(out, "key", key)?;
    put_list(out, imports)?;
    end_object(out)
}

/// Writes the member that lists imports.
fn put_list(out: &mut Writer, imports: &[String]) -> Result<(), AllocError>
    ensures { OnOk result (Puts out.old out.new (key (codes "imports") ∷ json_tokens (array_of
        (map string (map string_bytes imports.now))))) }
{
    out.key("imports")?;
    out.begin_array()?;
    for import in imports {
        out.string(import)?;
    }
    out.end_array()
}
