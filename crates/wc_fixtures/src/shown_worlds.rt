//! Types, interfaces, packages and worlds, as lines.

use crate::shown_names::{put_id, put_key, put_name, put_package_name};
use wc_lines::lines::Lines;
use wc_maps::Map;
use wc_resolve::{
    Function, Interface, InterfaceId, Package, TypeDef, TypeId, World, WorldItem, WorldKey,
};

/// A line for a type: its id, and what it is.
pub fn put_type_def(out: &mut Lines, index: u32, def: &TypeDef) {
    out.push_str("type ");
    put_id(out, 't', index);
    writeln!(out, " {def:?}");
}

fn put_named_types(out: &mut Lines, types: &Map<String, TypeId>) {
    for (name, id) in types.iter() {
        out.push_str("  type ");
        put_name(out, name);
        out.push(' ');
        put_id(out, 't', id.0);
        out.push('\n');
    }
}

fn put_functions(out: &mut Lines, functions: &Map<String, Function>) {
    for (name, function) in functions.iter() {
        out.push_str("  func ");
        put_name(out, name);
        writeln!(out, ": {function:?}");
    }
}

/// Lines for an interface: its id, name, package and origin, then its types and functions.
pub fn put_interface(out: &mut Lines, index: u32, interface: &Interface) {
    out.push_str("interface ");
    put_id(out, 'i', index);
    let (name, package, origin) = (&interface.name, interface.package, interface.clone_of);
    writeln!(out, " {name:?} of {package:?} clones {origin:?}");
    put_named_types(out, &interface.types);
    put_functions(out, &interface.functions);
}

fn put_members(out: &mut Lines, interfaces: &Map<String, InterfaceId>) {
    for (name, id) in interfaces.iter() {
        out.push_str("  interface ");
        put_name(out, name);
        out.push(' ');
        put_id(out, 'i', id.0);
        out.push('\n');
    }
}

/// Lines for a package: its id and name, then its interfaces.
pub fn put_package(out: &mut Lines, index: u32, package: &Package) {
    out.push_str("package ");
    put_id(out, 'p', index);
    out.push(' ');
    put_package_name(out, &package.name);
    out.push('\n');
    put_members(out, &package.interfaces);
}

fn put_entries(out: &mut Lines, word: &str, entries: &Map<WorldKey, WorldItem>) {
    for (key, item) in entries.iter() {
        out.push_str(word);
        put_key(out, key);
        writeln!(out, ": {item:?}");
    }
}

/// Lines for a world: its id and name, then its imports and its exports.
pub fn put_world(out: &mut Lines, index: u32, world: &World) {
    out.push_str("world ");
    put_id(out, 'w', index);
    out.push(' ');
    put_name(out, &world.name);
    out.push('\n');
    put_entries(out, "  import ", &world.imports);
    put_entries(out, "  export ", &world.exports);
}
