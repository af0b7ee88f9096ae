//! Texts that a program prints.

ghost use Rattle.std.specs.Prelude.{◌++◌};

use wc_texts::{FaultText, Pieces, PutFailed};

/// A text as it is.
#[derive(Clone, Copy)]
pub struct Text<'a>(pub &'a str);

impl FaultText for Text<'_> {
    ghost text = { λ t. t.0.now };

    fn put_pieces<P: Pieces>(&self, out: &mut P) -> Result<(), PutFailed> {
        out.put_piece(self.0)
    }
}

/// A text with others before it and after it.
#[derive(Clone, Copy)]
pub struct TextBetween<'a, T> {
    /// The text before it.
    pub before: &'a str,
    /// The text.
    pub text: &'a T,
    /// The text after it.
    pub after: &'a str,
}

impl<T: FaultText> FaultText for TextBetween<'_, T> {
    ghost text = { λ m. m.before.now ++ (T.text m.text.now ++ m.after.now) };

    fn put_pieces<P: Pieces>(&self, out: &mut P) -> Result<(), PutFailed> {
        out.put_piece(self.before)?;
        self.text.put_pieces(out)?;
        out.put_piece(self.after)
    }
}
