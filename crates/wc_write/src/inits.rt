//! Initialisers of globals (WebAssembly core specification, 5.4.9).

ghost use Rattle.std.specs.Prelude.{◌≡◌, ◌++◌, List, OnOk};
ghost use Rattle.wc_read.specs.Inits.{init_value};
ghost use Rattle.wc_read.specs.Operators.{InstrValue};
ghost use Rattle.wc_write.specs.Modules.{operators_text};

use crate::vectors::put_all;
use std::alloc::AllocError;
use wc_read::Init;

/// An initialiser that can append its text, its `end` as the last operator (5.4.9).
pub trait InitText: Sized + Drop {
    /// The operators of the initialiser.
    ghost init: { Self → List InstrValue };

    /// Appends the text of the initialiser.
    ///
    /// # Errors
    ///
    /// `AllocError`: an allocation failed.
    fn put(&self, out: &mut Vec<u8>) -> Result<(), AllocError>
        ensures { OnOk result (out.new.items ≡ out.old.items ++ operators_text (init self.now)) };
}

impl<'a> InitText for Init<'a> {
    ghost init = { init_value };

    fn put(&self, out: &mut Vec<u8>) -> Result<(), AllocError> {
        put_init(out, self)
    }
}

/// Appends an initialiser.
fn put_init(out: &mut Vec<u8>, init: &Init<'_>) -> Result<(), AllocError>
    ensures { OnOk result (out.new.items ≡ out.old.items ++ operators_text (init_value init.now)) }
{
    put_all(out, &init.operators)?;
    Ok(())
}
