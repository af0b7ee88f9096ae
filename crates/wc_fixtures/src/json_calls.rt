//! Calls of `wc_json`: texts read as resolved worlds.

use crate::shown_names::{put_id, put_name};
use crate::shown_worlds::{put_interface, put_package, put_type_def, put_world};
use std::alloc::Global;
use wc_json::{Document, document_from_json};
use wc_lines::input::Stop;
use wc_lines::lines::Lines;
use wc_lines::put_last::{PutAbout, put_last_about};
use wc_lines::rows::Row;
use wc_lines::seeds::row_seed;
use wc_lines::values::put_fault;
use wc_maps::Map;
use wc_resolve::{PackageId, Parts, WorldId};

/// `document`: the text that the lines of input are, with a line feed after each; its types, interfaces, packages and
/// worlds as lines, and then which package each world is of, and which worlds each package lists.
pub(crate) fn answer_document(alloc: Global, row: &Row<'_>, out: &mut Lines) -> Result<(), Stop> {
    let mut text = String::new(alloc);
    for line in &row.input {
        text.push_str(line)?;
        text.push('\n')?;
    }
    match document_from_json(alloc, row_seed(), &text) {
        Ok(document) => put_last_about(alloc, &All, document, out),
        Err(fault) => put_fault(out, fault),
    }
    Ok(())
}

/// That all of a document is asked for.
#[derive(Clone, Copy)]
struct All;

impl PutAbout<All> for Document {
    /// Lines for the parts, the package of each world, and the worlds of each package.
    fn put_about(&self, _alloc: Global, _about: &All, out: &mut Lines) {
        put_parts(out, &self.parts);
        put_world_packages(out, &self.world_packages);
        put_package_worlds(out, &self.package_worlds);
    }
}

fn put_parts(out: &mut Lines, parts: &Parts) {
    let mut index = 0u32;
    for def in &parts.types {
        put_type_def(out, index, def);
        index = index.saturating_add(1);
    }
    put_interfaces(out, parts);
    put_packages(out, parts);
    put_worlds(out, parts);
}

fn put_interfaces(out: &mut Lines, parts: &Parts) {
    let mut index = 0u32;
    for interface in &parts.interfaces {
        put_interface(out, index, interface);
        index = index.saturating_add(1);
    }
}

fn put_packages(out: &mut Lines, parts: &Parts) {
    let mut index = 0u32;
    for package in &parts.packages {
        put_package(out, index, package);
        index = index.saturating_add(1);
    }
}

fn put_worlds(out: &mut Lines, parts: &Parts) {
    let mut index = 0u32;
    for world in &parts.worlds {
        put_world(out, index, world);
        index = index.saturating_add(1);
    }
}

/// A line `of WORLD PACKAGE` for each world that names its package.
fn put_world_packages(out: &mut Lines, packages: &[Option<PackageId>]) {
    let mut index = 0u32;
    for package in packages {
        if let Some(id) = package {
            out.push_str("of ");
            put_id(out, 'w', index);
            out.push(' ');
            put_id(out, 'p', id.0);
            out.push('\n');
        }
        index = index.saturating_add(1);
    }
}

/// `lists`, a package, a world's name and its id, for each world of each package.
fn put_package_worlds(out: &mut Lines, packages: &[Map<String, WorldId>]) {
    let mut index = 0u32;
    for worlds in packages {
        put_listed(out, index, worlds);
        index = index.saturating_add(1);
    }
}

fn put_listed(out: &mut Lines, package: u32, worlds: &Map<String, WorldId>) {
    for (name, id) in worlds.iter() {
        out.push_str("lists ");
        put_id(out, 'p', package);
        out.push(' ');
        put_name(out, name);
        out.push(' ');
        put_id(out, 'w', id.0);
        out.push('\n');
    }
}
