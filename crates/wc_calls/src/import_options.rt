//! The canonical options of lowered functions, by a list of a message.

ghost use Rattle.std.specs.Prelude.{◌≡◌, IfOk, map};
ghost use Rattle.std.specs.Map.{lookup};
ghost use Rattle.std.specs.Option.{option_map};
ghost use Rattle.std.specs.Str.{bytes_eq};
ghost use Rattle.wc_json.specs.Messages.{options_message_view, options_view};
ghost use Rattle.wc_world.specs.Options.{bit_if};
ghost use Rattle.wc_calls.specs.ImportOptions.{first_options, listed_options, named_options};
ghost use Rattle.wc_calls.specs.Private.OptionTables.{bits_of, message_entry, table_entry, table_options};

use bitflags::Flags;
use std::alloc::{AllocError, Global};
use wc_json::OptionsMessage;
use wc_maps::{Map, Seed};
use wc_resolve::{AbiVariant, Function, Resolve};
use wc_world::{ImportOptions, PlainOptions, RequiredOptions};

/// The bits of options, if they are needed.
fn bit_if(options: RequiredOptions, is_needed: bool) -> u8
    ensures { result ≡ bit_if options.0 is_needed }
{
    if is_needed { options.bits() } else { 0 }
}

/// The set of the options that a message has.
fn option_set(message: &OptionsMessage) -> RequiredOptions
    ensures { result.0 ≡ (message_entry message.now).1 }
{
    let memory = bit_if(RequiredOptions::MEMORY, message.memory);
    let realloc = bit_if(RequiredOptions::REALLOC, message.realloc);
    let string_encoding = bit_if(RequiredOptions::STRING_ENCODING, message.string_encoding);
    let is_async = bit_if(RequiredOptions::ASYNC, message.is_async);
    RequiredOptions::from_bits_retain(memory + (realloc + (string_encoding + is_async)))
}

/// The options of functions by their names; a function of another name has the plain ones.
#[derive(Drop)]
pub(crate) struct OptionTable {
    by_name: Map<String, RequiredOptions>,
}

impl OptionTable {
    /// The table of a list: of several in it that are of one name the first counts. `seed`: the seed of the map that is
    /// made.
    fn new(
        alloc: Global,
        seed: Seed,
        messages: &[OptionsMessage],
    ) -> Result<OptionTable, AllocError>
        ensures { IfOk result (λ t. table_options t
            ≡ first_options (map named_options (map options_message_view messages.now))) }
    {
        let mut by_name = Map::with_hasher(alloc, seed);
        for message in messages {
            if !by_name.contains_key(message.name.as_str()) {
                by_name.insert(message.name.clone()?, option_set(message))?;
            }
        }
        Ok(OptionTable { by_name })
    }

    /// The table of a list, and that of the empty one where there is none.
    pub(crate) fn listed(
        alloc: Global,
        seed: Seed,
        messages: &Option<Vec<OptionsMessage>>,
    ) -> Result<OptionTable, AllocError>
        ensures { IfOk result (λ t. table_options t
            ≡ listed_options (options_view messages.now)) }
    {
        match messages {
            Some(messages) => OptionTable::new(alloc, seed, messages),
            None => OptionTable::new(alloc, seed, &[]),
        }
    }

    /// The options under a name, if the table has some.
    fn under(&self, name: &str) -> Option<RequiredOptions>
        ensures { option_map bits_of result
            ≡ lookup (bytes_eq name.now) (map table_entry self.now.by_name.entries) }
    {
        self.by_name.get(name).copied()
    }
}

impl ImportOptions for OptionTable {
    ghost use Rattle.wc_calls.specs.Private.OptionTables.{table_options};

    ghost options_of = { table_options };

    fn for_import(
        &self,
        alloc: Global,
        resolve: &Resolve,
        function: &Function,
        abi: AbiVariant,
    ) -> Result<RequiredOptions, AllocError> {
        match self.under(&function.name) {
            Some(options) => Ok(options),
            None => PlainOptions.for_import(alloc, resolve, function, abi),
        }
    }
}
