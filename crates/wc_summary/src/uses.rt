//! The uses of interfaces by an adapter, which are noted of each.

ghost use Rattle.std.specs.Prelude.{◌≡◌, ◌≢◌, ◌++◌, ◌∷◌, [], AllPairs, IfOk, OnOk, cond, filter, map, slice_index, string_bytes};
ghost use Rattle.std.specs.List.{slice_get};
ghost use Rattle.std.specs.Option.{option_to_list};
ghost use Rattle.wc_gc.specs.LiveItems.{names_of};
ghost use Rattle.wc_summary.specs.Parts.{is_wanted_in};
ghost use Rattle.wc_summary.specs.Summary.{part_view};
ghost use Rattle.wc_summary.specs.Entries.{entries_view};
ghost use Rattle.wc_summary.specs.Private.Uses.{ArePushed, IsPushed, alone_at, exports_at, led_at, part_at, picks};

use crate::entries::{place_of, push_part};
use crate::summary::{AdapterPart, Entries};
use std::alloc::{AllocError, Global};
use wc_graph::Alone;
use wc_maps::{Map, Set};

/// The exports of an adapter for which it is trimmed.
#[derive(Drop)]
pub struct Required<'r, T> {
    /// Their names.
    pub names: &'r Set<String>,
    /// The imports of the main module from the adapter, under their names.
    pub wanted: &'r Map<String, T>,
}

/// The uses of interfaces by an adapter, by their positions among those of which it imports something.
#[derive(Drop)]
pub(crate) struct Uses {
    pub(crate) is_library: bool,
    /// How many imports are of each.
    pub(crate) counts: Vec<usize>,
    /// The positions of the required exports that lead to each.
    pub(crate) led: Vec<Vec<usize>>,
    /// The functions that are live for these alone.
    pub(crate) alone: Vec<Alone>,
}

/// Notes what an adapter imports of each of some interfaces.
pub(crate) fn push_uses<'a, T>(
    alloc: Global,
    name: &'a str,
    required: &Required<'_, T>,
    uses: &Uses,
    interfaces: &[String],
    entries: &mut Entries<'a>,
) -> Result<(), AllocError>
    requires { AllPairs (λ x y. x ≢ y) (names_of interfaces.now) }
    ensures { OnOk result (ArePushed (part_at name.now (names_of required.now.names.now.keys)
        (is_wanted_in required.now) uses.now)
        (names_of interfaces.now)
        (entries_view entries.old.entries) (entries_view entries.new.entries)) }
{
    for position in 0..interfaces.len() {
        let part = part_of(alloc, name, required, uses, position)?;
        push_one(alloc, &interfaces[position], part, entries)?;
    }
    Ok(())
}

/// Notes a part of an interface.
pub(crate) fn push_one<'a>(
    alloc: Global,
    interface: &str,
    part: AdapterPart<'a>,
    entries: &mut Entries<'a>,
) -> Result<(), AllocError>
    ensures { OnOk result (IsPushed interface.now (part_view part.entry)
        (entries_view entries.old.entries) (entries_view entries.new.entries)) }
{
    let place = place_of(alloc, entries, interface)?;
    push_part(entries, place, part)
}

/// The part of an adapter of the interface at a position.
fn part_of<'a, T>(
    alloc: Global,
    name: &'a str,
    required: &Required<'_, T>,
    uses: &Uses,
    position: usize,
) -> Result<AdapterPart<'a>, AllocError>
    ensures { IfOk result (λ p. part_view p ≡ part_at name.now
        (names_of required.now.names.now.keys)
        (is_wanted_in required.now) uses.now position) }
{
    let led = led_at(uses, position);
    let exports = names_at(alloc, required, led, true)?;
    let stays = names_at(alloc, required, led, false)?;
    let alone = alone_at(uses, position);
    Ok(AdapterPart {
        adapter: name,
        is_library: uses.is_library,
        imports: count_at(uses, position),
        exports,
        stays,
        roots: Vec::new(alloc),
        functions: alone.items,
        bytes: alone.size,
    })
}

/// How many imports are of the interface at a position.
pub(crate) fn count_at(uses: &Uses, position: usize) -> usize
    ensures { result ≡ slice_index uses.now.counts.items position }
{
    match uses.counts.get(position) {
        Some(count) => *count,
        None => 0,
    }
}

/// The positions of the required exports that lead to the interface at a position; none of a library.
pub(crate) fn led_at(uses: &Uses, position: usize) -> &[usize]
    ensures { result.now ≡ led_at uses.now position }
{
    match uses.led.get(position) {
        Some(led) => led,
        None => &[],
    }
}

/// The functions that are live for these alone.
pub(crate) fn alone_at(uses: &Uses, position: usize) -> Alone
    ensures { result ≡ alone_at uses.now position }
{
    match uses.alone.get(position) {
        Some(alone) => *alone,
        None => Alone { items: 0, size: 0 },
    }
}

/// The names of the required exports at some positions, of which the main module imports them or not.
fn names_at<T>(
    alloc: Global,
    required: &Required<'_, T>,
    positions: &[usize],
    is_wanted: bool,
) -> Result<Vec<String>, AllocError>
    ensures { IfOk result (λ v. map string_bytes v.items ≡ exports_at is_wanted
        (names_of required.now.names.now.keys)
        (is_wanted_in required.now) positions.now) }
{
    let mut exports = Vec::new(alloc);
    for position in positions {
        note_name(alloc, required, *position, is_wanted, &mut exports)?;
    }
    Ok(exports)
}

/// Notes the required export at a position, if the main module imports it or not.
fn note_name<T>(
    alloc: Global,
    required: &Required<'_, T>,
    position: usize,
    is_wanted: bool,
    exports: &mut Vec<String>,
) -> Result<(), AllocError>
    ensures { OnOk result (map string_bytes exports.new.items ≡ map string_bytes exports.old.items
        ++ filter (picks is_wanted (is_wanted_in required.now))
        (option_to_list (slice_get (names_of required.now.names.now.keys) position))) }
{
    match required.names.get_index(position) {
        Some(name) => note_if(alloc, is_picked(required, name, is_wanted), name, exports),
        None => Ok(()),
    }
}

/// Notes a name, if it is picked.
pub(crate) fn note_if(
    alloc: Global,
    is_picked: bool,
    name: &str,
    exports: &mut Vec<String>,
) -> Result<(), AllocError>
    ensures { OnOk result (map string_bytes exports.new.items ≡ map string_bytes exports.old.items
        ++ cond is_picked (name.now ∷ []) []) }
{
    if is_picked {
        exports.push(String::from_str(alloc, name)?)?;
    }
    Ok(())
}

/// Whether the main module imports an export, or whether it doesn't.
fn is_picked<T>(required: &Required<'_, T>, name: &str, is_wanted: bool) -> bool
    ensures { result ≡ picks is_wanted (is_wanted_in required.now)
        name.now }
{
    if is_wanted {
        required.wanted.contains_key(name)
    } else {
        !required.wanted.contains_key(name)
    }
}
