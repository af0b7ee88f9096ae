//! Messages: what a component is encoded from, but for the bytes of its modules.

ghost use Rattle.std.specs.Prelude.{◌≡◌, IfErr, IfOk, IsErr};
ghost use Rattle.json.specs.Json.{document};
ghost use Rattle.json.specs.Value.{value_view};
ghost use Rattle.wc_json.specs.Fault.{NeedsNoMemory, Reads};
ghost use Rattle.wc_json.specs.FromJson.{IsCauseOf, IsReadFrom, IsText};
ghost use Rattle.wc_json.specs.Messages.{flag, flag_value, message, message_view, world_name, world_name_view};
ghost use Rattle.wc_json.specs.declared.fault.JsonFault.TheVariants.{Memory};

use crate::from_json::{FromJson, value_from_json};
use crate::members::{find_member, optional_member, required_member};
use crate::paths::at_member;
use crate::{Document, JsonFault};
use json::Value;
use std::alloc::Global;
use wc_encoder::LibraryInfo;
use wc_maps::Seed;
use wc_resolve::{WorldId, WorldKey};

/// Which world a component is encoded for: the one at an index, or the one that a text names.
#[derive(Drop)]
pub enum WorldName {
    /// An index in the list of worlds. Nothing says that it is in range.
    Index(WorldId),
    /// A name, as a request gives it.
    Name(String),
}

impl FromJson for WorldName {
    ghost use Rattle.wc_json.specs.Messages.{WorldNameView, world_name, world_name_view};

    ghost View = { WorldNameView };

    ghost view = { world_name_view };

    ghost reading = { world_name };

    fn from_json(alloc: Global, seed: Seed, value: &Value<'_>) -> Result<WorldName, JsonFault>
        ensures reads { Reads world_name_view result (world_name (value_view value.now)) }
        ensures memory { IfErr result (λ f. f ≡ Memory → IsText (value_view value.now)) }
    {
        match value.as_str() {
            Some(name) => Ok(WorldName::Name(String::from_str(alloc, name)?)),
            None => Ok(WorldName::Index(WorldId::from_json(alloc, seed, value)?)),
        }
    }
}

/// A key of the world's exports.
#[derive(Drop)]
pub struct KeyMessage {
    /// The text that gives it.
    pub text: String,
    /// The key that the text is by itself: `interface-3` that of the interface 3 under its own id, any
    /// other text a plain one.
    pub key: WorldKey,
}

impl FromJson for KeyMessage {
    ghost use Rattle.wc_json.specs.Messages.{KeyMessageView, key_message, key_message_view};

    ghost View = { KeyMessageView };

    ghost view = { key_message_view };

    ghost reading = { key_message };

    fn from_json(alloc: Global, seed: Seed, value: &Value<'_>) -> Result<KeyMessage, JsonFault> {
        let text = String::from_json(alloc, seed, value)?;
        let key = WorldKey::from_json(alloc, seed, value)?;
        Ok(KeyMessage { text, key })
    }
}

/// An adapter or a library, but for its bytes.
#[derive(Drop)]
pub struct AdapterMessage {
    /// Its name.
    pub name: String,
    /// How many bytes its module has.
    pub length: u32,
    /// The keys of the world's exports that it has to export.
    pub exports: Vec<KeyMessage>,
    /// How it is instantiated, if it is a library.
    pub library_info: Option<LibraryInfo>,
}

impl FromJson for AdapterMessage {
    ghost use Rattle.wc_json.specs.Messages.{AdapterMessageView, adapter_message, adapter_message_view};

    ghost View = { AdapterMessageView };

    ghost view = { adapter_message_view };

    ghost reading = { adapter_message };

    fn from_json(
        alloc: Global,
        seed: Seed,
        value: &Value<'_>,
    ) -> Result<AdapterMessage, JsonFault> {
        let name = required_member(alloc, seed, value, "name")?;
        let length = required_member(alloc, seed, value, "length")?;
        let exports = required_member(alloc, seed, value, "exports")?;
        let library_info = optional_member(alloc, seed, value, "library_info")?;
        Ok(AdapterMessage {
            name,
            length,
            exports,
            library_info,
        })
    }
}

/// Which canonical options lowered functions of a name have.
#[derive(Drop)]
pub struct OptionsMessage {
    /// The name of the functions in WIT, as `[method]output-stream.write`.
    pub name: String,
    /// Whether they are given a memory.
    pub memory: bool,
    /// Whether they are given a function that allocates in it.
    pub realloc: bool,
    /// Whether they are given an encoding of strings.
    pub string_encoding: bool,
    /// Whether they are lowered asynchronously.
    pub is_async: bool,
}

/// True or false; false for null.
fn flag_value(alloc: Global, seed: Seed, value: &Value<'_>) -> Result<bool, JsonFault>
    ensures reads { Reads (λ b. b) result (flag_value (value_view value.now)) }
    ensures no_memory { NeedsNoMemory result }
{
    if value.is_null() {
        return Ok(false);
    }
    bool::from_json(alloc, seed, value)
}

/// The member of this name, which is true or false; false where it is missing or null.
fn flag(alloc: Global, seed: Seed, object: &Value<'_>, name: &str) -> Result<bool, JsonFault>
    ensures reads { Reads (λ b. b) result (flag name.now (value_view object.now)) }
    ensures memory { IfErr result (λ f. f ≡ Memory
        → IsErr (flag name.now (value_view object.now))) }
{
    match find_member(alloc, object, name)? {
        Some(value) => at_member(alloc, name, flag_value(alloc, seed, value)),
        None => Ok(false),
    }
}

impl FromJson for OptionsMessage {
    ghost use Rattle.wc_json.specs.Messages.{OptionsMessageView, options_message, options_message_view};

    ghost View = { OptionsMessageView };

    ghost view = { options_message_view };

    ghost reading = { options_message };

    fn from_json(
        alloc: Global,
        seed: Seed,
        value: &Value<'_>,
    ) -> Result<OptionsMessage, JsonFault> {
        let name = required_member(alloc, seed, value, "name")?;
        let memory = flag(alloc, seed, value, "memory")?;
        let realloc = flag(alloc, seed, value, "realloc")?;
        let string_encoding = flag(alloc, seed, value, "string_encoding")?;
        let is_async = flag(alloc, seed, value, "async")?;
        Ok(OptionsMessage {
            name,
            memory,
            realloc,
            string_encoding,
            is_async,
        })
    }
}

/// The parts that a component is encoded from, but for the bytes of its modules. They need not be well-formed.
#[derive(Drop)]
pub struct Message {
    /// The worlds, interfaces, types and packages.
    pub document: Document,
    /// The world that the component is encoded for.
    pub world: WorldName,
    /// Whether names of the older scheme are refused; `None` where that is missing.
    pub reject_legacy_names: Option<bool>,
    /// Whether a realloc that is made grows the memory; `None` where that is missing.
    pub realloc_via_memory_grow: Option<bool>,
    /// The name of the task hook; `None` where it is missing.
    pub task_hook: Option<String>,
    /// How many bytes the main module has.
    pub length: u32,
    /// The keys of the world's exports that the main module has to export. `None`: all that no adapter has to export.
    pub exports: Option<Vec<KeyMessage>>,
    /// The adapters and libraries, in order.
    pub adapters: Vec<AdapterMessage>,
    /// The options of lowered functions by their names. `None`, and functions of other names: the plain ones.
    pub options: Option<Vec<OptionsMessage>>,
}

impl FromJson for Message {
    ghost use Rattle.wc_json.specs.Messages.{MessageView, message, message_view};

    ghost View = { MessageView };

    ghost view = { message_view };

    ghost reading = { message };

    fn from_json(alloc: Global, seed: Seed, value: &Value<'_>) -> Result<Message, JsonFault> {
        let document = required_member(alloc, seed, value, "resolve")?;
        let world = required_member(alloc, seed, value, "world")?;
        let reject_legacy_names = optional_member(alloc, seed, value, "reject_legacy_names")?;
        let realloc_via_memory_grow = optional_member(
            alloc,
            seed,
            value,
            "realloc_via_memory_grow",
        )?;
        let task_hook = optional_member(alloc, seed, value, "task_hook")?;
        let length = required_member(alloc, seed, value, "length")?;
        let exports = optional_member(alloc, seed, value, "exports")?;
        let adapters = required_member(alloc, seed, value, "adapters")?;
        let options = optional_member(alloc, seed, value, "options")?;
        Ok(Message {
            document,
            world,
            reject_legacy_names,
            realloc_via_memory_grow,
            task_hook,
            length,
            exports,
            adapters,
            options,
        })
    }
}

/// Reads a message from JSON: an object, whose members are a resolved world, as `document_from_json`
/// reads it, and what a component for one of its worlds is encoded from; `MODEL.md` lists them. Members
/// that are not listed are passed over. Reading ends on any text, and needs no more of the stack than
/// 128 nested values do. `seed`: the seed of the maps that are made.
///
/// # Errors
///
/// - `NotJson`: the text is not JSON (RFC 8259), or it nests deeper than 128.
/// - `RepeatedMember`: an object has two members of one name, also one that would be passed over.
/// - `Wrong`: the first value that isn't what it has to be; the path leads to it. The members of an
///   object go by the order in which the definitions (`specs/`) name them.
/// - `Memory`: an allocation failed. It may come in place of any other.
pub fn message_from_json(alloc: Global, seed: Seed, text: &str) -> Result<Message, JsonFault>
    ensures ok { IfOk result (IsReadFrom message_view message (document text.now)) }
    ensures fault { IfErr result (IsCauseOf message (document text.now)) }
{
    value_from_json(alloc, seed, text)
}
