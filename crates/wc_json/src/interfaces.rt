//! Interfaces.

use crate::JsonFault;
use crate::from_json::FromJson;
use crate::members::{optional_member, required_member};
use json::Value;
use std::alloc::Global;
use wc_maps::Seed;
use wc_resolve::Interface;

impl FromJson for Interface {
    ghost use Rattle.wc_resolve.specs.Views.{InterfaceView, interface_view};
    ghost use Rattle.wc_json.specs.Interfaces.{interface};

    ghost View = { InterfaceView };

    ghost view = { interface_view };

    ghost reading = { interface };

    fn from_json(alloc: Global, seed: Seed, value: &Value<'_>) -> Result<Interface, JsonFault> {
        let name = optional_member(alloc, seed, value, "name")?;
        let types = required_member(alloc, seed, value, "types")?;
        let functions = required_member(alloc, seed, value, "functions")?;
        let package = optional_member(alloc, seed, value, "package")?;
        let clone_of = optional_member(alloc, seed, value, "clone_of")?;
        Ok(Interface {
            name,
            types,
            functions,
            package,
            clone_of,
        })
    }
}
