//! The chains by which required exports of an adapter reach its imports, as a tree.

ghost use Rattle.std.specs.Prelude.{◌≡◌, IfOk, OnOk};
ghost use Rattle.std.specs.Str.{IsUtf8};
ghost use Rattle.wc_record.specs.Chains.{chains_json, item_json};
ghost use Rattle.wc_record.specs.Objects.{PutsJson};
ghost use Rattle.wc_record.specs.Texts.{text_of};

use crate::objects::{begin_object, end_object, put_member};
use crate::to_json::ToJson;
use json::Writer;
use std::alloc::{AllocError, Global};
use wc_gc::ImportChains;
use wc_read::Space;

impl ToJson for Space {
    ghost use Rattle.wc_read.specs.declared.operators.Space.{Space as space};
    ghost use Rattle.wc_record.specs.Chains.{space_json};

    ghost View = { space };

    ghost view = { λ s. s };

    ghost json = { space_json };

    fn write(&self, out: &mut Writer) -> Result<(), AllocError> {
        match self {
            Space::Types => out.string("type"),
            Space::Funcs => out.string("func"),
            Space::Tables => out.string("table"),
            Space::Memories => out.string("memory"),
            Space::Globals => out.string("global"),
        }
    }
}

/// Writes `{"space": SPACE, "index": INDEX}`.
fn put_item(out: &mut Writer, space: Space, index: u32) -> Result<(), AllocError>
    ensures { OnOk result (PutsJson out.old out.new (item_json (space, index))) }
{
    begin_object(out)?;
    put_member(out, "space", &space)?;
    put_member(out, "index", &index)?;
    end_object(out)
}

impl ToJson for (Space, u32) {
    ghost use Rattle.wc_read.specs.Decoded.{ItemIndex};
    ghost use Rattle.wc_record.specs.Chains.{item_json};

    ghost View = { ItemIndex };

    ghost view = { λ x. x };

    ghost json = { item_json };

    fn write(&self, out: &mut Writer) -> Result<(), AllocError> {
        put_item(out, self.0, self.1)
    }
}

/// Writes the tree of chains.
fn put_chains(out: &mut Writer, chains: &ImportChains<'_>) -> Result<(), AllocError>
    ensures { OnOk result (PutsJson out.old out.new (chains_json chains.now)) }
{
    begin_object(out)?;
    put_member(out, "items", &chains.order)?;
    put_member(out, "finders", &chains.finder)?;
    put_member(out, "exports", &chains.exports)?;
    put_member(out, "imports", &chains.imports)?;
    end_object(out)
}

/// Chains to imports as JSON: an object with four members. `items` has the items that required exports reach, in the
/// order of `ImportChains`, each an object with `space` (`type`, `func`, `table`, `memory` or `global`) and `index`.
/// `finders` has for each item the position in `items` of the item that first names it, or its own position if an
/// export names it. `exports` has for each item that an export names, which are the first items, the name of that
/// export. `imports` has for each import of the module, in the order of the file, the position of its item, or null
/// if it is not reached. The length of the text is linear in the tree of the chains. To read a chain, go from an
/// import's position to the position of its finder, and so on up to an item that an export names.
///
/// # Errors
///
/// `AllocError`: an allocation failed.
pub fn import_chains_to_json(
    alloc: Global,
    chains: &ImportChains<'_>,
) -> Result<Vec<u8>, AllocError>
    ensures text { IfOk result (λ bytes. bytes.items ≡ text_of (chains_json chains.now)) }
    ensures utf8 { IfOk result (λ bytes. IsUtf8 bytes.items) }
{
    let mut out = Writer::new(Vec::new(alloc));
    put_chains(&mut out, chains)?;
    Ok(out.into_inner())
}
