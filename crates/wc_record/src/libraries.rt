//! The instantiation of libraries, as JSON.

use crate::objects::{begin_object, end_object, put_kind_with, put_member, put_plain_kind};
use crate::to_json::ToJson;
use json::Writer;
use std::alloc::AllocError;
use wc_encoder::{Instance, Item, LibraryInfo, MainOrAdapter};

impl ToJson for MainOrAdapter {
    ghost use Rattle.wc_adapters.specs.Adapters.{WhichView, which_view};
    ghost use Rattle.wc_record.specs.Libraries.{which_json};

    ghost View = { WhichView };

    ghost view = { which_view };

    ghost json = { which_json };

    fn write(&self, out: &mut Writer) -> Result<(), AllocError> {
        match self {
            MainOrAdapter::Main => put_plain_kind(out, "main"),
            MainOrAdapter::Adapter(name) => put_kind_with(out, "adapter", "name", name),
        }
    }
}

impl ToJson for Item {
    ghost use Rattle.wc_adapters.specs.Adapters.{LibraryItemView, library_item_view};
    ghost use Rattle.wc_record.specs.Libraries.{library_item_json};

    ghost View = { LibraryItemView };

    ghost view = { library_item_view };

    ghost json = { library_item_json };

    fn write(&self, out: &mut Writer) -> Result<(), AllocError> {
        begin_object(out)?;
        put_member(out, "alias", &self.alias)?;
        put_member(out, "kind", &self.kind)?;
        put_member(out, "which", &self.which)?;
        put_member(out, "name", &self.name)?;
        end_object(out)
    }
}

impl ToJson for Instance {
    ghost use Rattle.wc_adapters.specs.Adapters.{InstanceView, instance_view};
    ghost use Rattle.wc_record.specs.Libraries.{instance_json};

    ghost View = { InstanceView };

    ghost view = { instance_view };

    ghost json = { instance_json };

    fn write(&self, out: &mut Writer) -> Result<(), AllocError> {
        match self {
            Instance::MainOrAdapter(which) => put_kind_with(out, "module", "which", which),
            Instance::Items(items) => put_kind_with(out, "items", "items", items),
        }
    }
}

/// The instance that a library gets under the name of a module.
impl ToJson for (String, Instance) {
    ghost use Rattle.std.specs.Prelude.{List, ℕ};
    ghost use Rattle.wc_adapters.specs.Adapters.{InstanceView, argument_view};
    ghost use Rattle.wc_record.specs.Libraries.{argument_json};

    ghost View = { List ℕ × InstanceView };

    ghost view = { argument_view };

    ghost json = { argument_json };

    fn write(&self, out: &mut Writer) -> Result<(), AllocError> {
        begin_object(out)?;
        put_member(out, "name", &self.0)?;
        put_member(out, "instance", &self.1)?;
        end_object(out)
    }
}

impl<'a> ToJson for &'a LibraryInfo {
    ghost use Rattle.wc_adapters.specs.Adapters.{LibraryView, library_view};
    ghost use Rattle.wc_record.specs.Libraries.{library_json};

    ghost View = { LibraryView };

    ghost view = { λ l. library_view l.now };

    ghost json = { library_json };

    fn write(&self, out: &mut Writer) -> Result<(), AllocError> {
        begin_object(out)?;
        put_member(out, "arguments", &self.arguments)?;
        put_member(
            out,
            "instantiate_after_shims",
            &self.instantiate_after_shims,
        )?;
        end_object(out)
    }
}
