//! Laws of the texts that are written. Bytes spell a value where they are one of its encodings; the text of a value
//! is the encoding that this crate writes. Section numbers are those of the WebAssembly core specification.

ghost use Rattle.wc_write.specs.Values.{AreBytes};
ghost use Rattle.wc_write.specs.Laws.{NumberIsSpelled, NumberIsShortest, ImportIsSpelled, ImportsAreSpelled, SpelledAreImports, ImportsAreShortest, SectionIsSpelled, SectionIsShortest, BodyTextIsRead, SpelledAreBodies, BodyIsShortest, InitTextIsRead, SpelledAreInits, InitIsShortest, TextIsRead, ModuleIsShortest, SpelledAreModules};

/// The text of an unsigned number of n bits, n at most 64, spells it as a number of n bits (5.2.2).
pub fn number_is_spelled()
    ensures { NumberIsSpelled }
{}

/// No bytes that spell an unsigned number are fewer than those of its text (5.2.2).
pub fn number_is_shortest()
    ensures { NumberIsShortest }
{}

/// The text of an import spells it, where it can be spelled: its names are UTF-8 of fewer than 2^32 bytes, numbers
/// fit their bits, and tables and memories are as the format has them (5.5.5).
pub fn import_is_spelled()
    ensures { ImportIsSpelled }
{}

/// The text of fewer than 2^32 such imports spells them, as the content of an import section (5.5.5).
pub fn imports_are_spelled()
    ensures { ImportsAreSpelled }
{}

/// Imports that some bytes spell can be spelled: they are fewer than 2^32, and each is as `import_is_spelled` asks.
/// So their text spells them too (5.5.5).
pub fn spelled_are_imports()
    ensures { SpelledAreImports }
{}

/// No bytes that spell imports are fewer than those of their text (5.5.5).
pub fn imports_are_shortest()
    ensures { ImportsAreShortest }
{}

/// The text of a section spells its id and its content, where the content has fewer than 2^32 bytes (5.5.2).
pub fn section_is_spelled()
    ensures { SectionIsSpelled }
{}

/// No bytes that spell a section are fewer than those of its text (5.5.2).
pub fn section_is_shortest()
    ensures { SectionIsShortest }
{}

/// The text of a function's body spells it and no other body, where the text has fewer than 2^32 bytes and the body
/// can be spelled: each operator's immediates have the shape that the operator table has for its code, numbers fit
/// their bits, there are fewer than 2^32 locals, and blocks nest (5.4 and 5.5.13).
pub fn body_text_read()
    ensures { BodyTextIsRead }
{}

/// A body that some bytes spell can be spelled, as `body_text_read` asks (5.5.13).
pub fn spelled_are_bodies()
    ensures { SpelledAreBodies }
{}

/// No bytes that spell a body are fewer than those of its text (5.5.13).
pub fn body_is_shortest()
    ensures { BodyIsShortest }
{}

/// The text of an initialiser spells it and no other initialiser, where the text has fewer than 2^32 bytes and the
/// initialiser can be spelled: it is constant operators and an `end` after them, their immediates have the shapes
/// that the operator table has for their codes, and numbers fit their bits (5.4.9).
pub fn initialiser_text_read()
    ensures { InitTextIsRead }
{}

/// An initialiser that some bytes spell can be spelled, as `initialiser_text_read` asks (5.4.9).
pub fn spelled_are_initialisers()
    ensures { SpelledAreInits }
{}

/// No bytes that spell an initialiser are fewer than those of its text (5.4.9).
pub fn initialiser_is_shortest()
    ensures { InitIsShortest }
{}

/// The text of a module spells it and no other module: its imports are grouped by kind, each index space is
/// unchanged, bodies and initialisers are their texts, and there are no names of globals and no segments. The text
/// of each body and of each initialiser spells it and no other (5.5).
///
/// That is so where no content of a section has 2^32 bytes or more, each part of the module can be spelled, imported
/// items come before defined ones in each index space, and the module that is read is valid (3.4).
pub fn text_read()
    ensures { TextIsRead }
{}

/// No bytes that spell a module with the same types, index spaces, exports, start function and producers are fewer
/// than those of the module's text. Bodies are the same where they have the same runs of locals and the same
/// operators, initialisers where they have the same operators. The bytes may have whatever else: imports in another
/// order, names, segments and other custom sections, and empty sections (5.5.16).
pub fn module_is_shortest()
    ensures { ModuleIsShortest }
{}

/// A module that some bytes spell meets what `text_read` asks of the parts of a module: names, types, indices,
/// initialisers and producers can be spelled, and imported items come first in each index space. `spelled_are_bodies`
/// says it of bodies. Nothing is said of the sizes of contents, nor of the module with its imports grouped (5.5.16).
pub fn spelled_are_modules()
    ensures { SpelledAreModules }
{}

/// The items of a slice of `u8` are bytes, that is numbers below 256, as other laws ask of theirs.
pub fn slices_are_bytes(slice: &[u8])
    ensures { AreBytes slice.now }
{}
