//! Plans.

ghost use Rattle.std.specs.Prelude.{◌≡◌, IfOk};
ghost use Rattle.std.specs.Str.{IsUtf8};
ghost use Rattle.wc_plan.specs.PlanViews.{plan_view};
ghost use Rattle.wc_record.specs.Texts.{plan_text};

use crate::objects::{begin_object, end_object, put_kind_with, put_member, put_plain_kind};
use crate::to_json::ToJson;
use json::Writer;
use std::alloc::{AllocError, Global};
use wc_plan::{Owner, Plan, Use};

impl ToJson for Owner {
    ghost use Rattle.wc_plan.specs.PlanViews.{owner_view};
    ghost use Rattle.wc_plan.specs.Views.{OwnerView};
    ghost use Rattle.wc_record.specs.Plans.{owner_json};

    ghost View = { OwnerView };

    ghost view = { owner_view };

    ghost json = { owner_json };

    fn write(&self, out: &mut Writer) -> Result<(), AllocError> {
        match self {
            Owner::Main => put_plain_kind(out, "main"),
            Owner::Adapter(name) => put_kind_with(out, "adapter", "name", name),
        }
    }
}

impl ToJson for Use {
    ghost use Rattle.wc_plan.specs.PlanViews.{use_view};
    ghost use Rattle.wc_plan.specs.Views.{UseView};
    ghost use Rattle.wc_record.specs.Plans.{use_json};

    ghost View = { UseView };

    ghost view = { use_view };

    ghost json = { use_json };

    fn write(&self, out: &mut Writer) -> Result<(), AllocError> {
        begin_object(out)?;
        put_member(out, "module", &self.module)?;
        put_member(out, "interface", &self.interface)?;
        put_member(out, "name", &self.name)?;
        put_member(out, "abi", &self.abi)?;
        put_member(out, "slot", &self.slot)?;
        put_member(out, "realloc", &self.realloc)?;
        end_object(out)
    }
}

/// A plan as JSON: the list of its uses in order, each an object with `module` (of kind `main`, or of kind `adapter`
/// with a `name`), `interface` (null for a function of the world itself), `name`, `abi`, `slot` and `realloc` (null
/// where there is none).
///
/// # Errors
///
/// `AllocError`: an allocation failed.
pub fn plan_to_json(alloc: Global, plan: &Plan) -> Result<Vec<u8>, AllocError>
    ensures text { IfOk result (λ bytes. bytes.items ≡ plan_text (plan_view plan.now)) }
    ensures utf8 { IfOk result (λ bytes. IsUtf8 bytes.items) }
{
    let mut out = Writer::new(Vec::new(alloc));
    plan.uses.write(&mut out)?;
    Ok(out.into_inner())
}
