//! Modules to be written, out of the bytes of modules.

use std::alloc::Global;
use wc_read::{
    Body, Def, Func, GlobalType, Init, Item, ReadFault, read_body, read_init, read_module,
};
use wc_write::Built;

/// Appends an item with its content decoded.
fn push_item<'a, T: Copy, C: Drop>(
    items: &mut Vec<Item<'a, T, C>>,
    ty: T,
    def: Result<Def<'a, C>, ReadFault>,
) -> Result<(), ReadFault> {
    items.push(Item { ty, def: def? })?;
    Ok(())
}

fn body_of<'a>(alloc: Global, def: Def<'a, &'a [u8]>) -> Result<Def<'a, Body<'a>>, ReadFault> {
    match def {
        Def::Import(module, name) => Ok(Def::Import(module, name)),
        Def::Local(body) => Ok(Def::Local(read_body(alloc, body)?)),
    }
}

fn bodies_of<'a>(
    alloc: Global,
    funcs: &[Func<'a>],
) -> Result<Vec<Item<'a, u32, Body<'a>>>, ReadFault> {
    let mut decoded = Vec::new(alloc);
    for func in funcs {
        push_item(&mut decoded, func.ty, body_of(alloc, func.def))?;
    }
    Ok(decoded)
}

fn init_of<'a>(alloc: Global, def: Def<'a, &'a [u8]>) -> Result<Def<'a, Init<'a>>, ReadFault> {
    match def {
        Def::Import(module, name) => Ok(Def::Import(module, name)),
        Def::Local(init) => Ok(Def::Local(read_init(alloc, init)?)),
    }
}

fn inits_of<'a>(
    alloc: Global,
    globals: &[wc_read::Global<'a>],
) -> Result<Vec<Item<'a, GlobalType, Init<'a>>>, ReadFault> {
    let mut decoded = Vec::new(alloc);
    for global in globals {
        push_item(&mut decoded, global.ty, init_of(alloc, global.def))?;
    }
    Ok(decoded)
}

/// The module that the bytes are, its bodies and initialisers decoded.
pub fn built_of(alloc: Global, bytes: &[u8]) -> Result<Built<'_>, ReadFault> {
    let module = read_module(alloc, bytes)?;
    let funcs = bodies_of(alloc, &module.funcs)?;
    let globals = inits_of(alloc, &module.globals)?;
    Ok(Built {
        types: module.types,
        funcs,
        tables: module.tables,
        memories: module.memories,
        globals,
        exports: module.exports,
        start: module.start,
        producers: module.producers,
    })
}
