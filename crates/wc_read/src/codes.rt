//! Constants of the binary format (WebAssembly core specification, 5): ids of sections, parts of numbers, flags, codes
//! and prefixes.

/// The id of a custom section (5.5.3).
pub const CUSTOM_ID: u8 = 0;

/// The id of the section of function types (5.5.4).
pub const TYPE_ID: u8 = 1;

/// The id of an import section (5.5.5).
pub const IMPORT_ID: u8 = 2;

/// The id of the section of the types of functions (5.5.6).
pub const FUNCTION_ID: u8 = 3;

/// The id of a table section (5.5.7).
pub const TABLE_ID: u8 = 4;

/// The id of a memory section (5.5.8).
pub const MEMORY_ID: u8 = 5;

/// The id of a global section (5.5.9).
pub const GLOBAL_ID: u8 = 6;

/// The id of an export section (5.5.10).
pub const EXPORT_ID: u8 = 7;

/// The id of a start section (5.5.11).
pub const START_ID: u8 = 8;

/// The id of the section of element segments (5.5.12).
pub const ELEMENT_ID: u8 = 9;

/// The id of the code section (5.5.13).
pub const CODE_ID: u8 = 10;

/// The id of the section of data segments (5.5.14).
pub const DATA_ID: u8 = 11;

/// The id of the section that counts data segments (5.5.15).
pub const DATA_COUNT_ID: u8 = 12;

/// The name of the custom section that says what made a module (tool conventions).
pub const PRODUCERS: &str = "producers";

/// How many bits of a number a byte has (5.2.2).
pub const GROUP_BITS: u32 = 7;

/// All bits of a number that a byte has (5.2.2).
pub const GROUP_MASK: u8 = 127;

/// The bit that is set in each byte of a number but the last (5.2.2).
pub const MORE_BYTES: u8 = 128;

/// The byte that a function type begins with (5.3.6).
pub const FUNC_TYPE: u8 = 0x60;

/// The byte that begins a reference type with null (proposal of typed function references).
pub const NULLABLE: u8 = 0x63;

/// The byte that begins a reference type without null.
pub const NON_NULLABLE: u8 = 0x64;

/// The flag of limits that have a maximum (5.3.7).
pub const HAS_MAXIMUM: u8 = 1;

/// The flag of a shared memory (proposal threads).
pub const SHARED: u8 = 2;

/// The flag of 64-bit limits (proposal memory64).
pub const IS_64: u8 = 4;

/// The flag of a memory that has the exponent of its page size (proposal custom page sizes).
pub const HAS_PAGE_SIZE: u8 = 8;

/// The byte of a block's type without a result (5.4.1).
pub const EMPTY_BLOCK: u8 = 0x40;

/// The byte before the number of an `Opcode::Misc` (5.4.5 to 5.4.7).
pub const MISC_PREFIX: u8 = 0xfc;

/// The byte before the number of an `Opcode::Vector` (5.4.8).
pub const VECTOR_PREFIX: u8 = 0xfd;

/// The byte before the number of an `Opcode::Atomic` (proposal threads).
pub const ATOMIC_PREFIX: u8 = 0xfe;
