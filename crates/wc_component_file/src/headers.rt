//! How the file of a component begins.

ghost use Rattle.std.specs.Prelude.{IfNone, IfSome};
ghost use Rattle.wc_component_file.specs.Headers.{BeginsAsComponent, HasHeader};

/// The version of the component that the bytes begin as, and the bytes after its header; `None` where they begin
/// otherwise.
pub fn header_of(bytes: &[u8]) -> Option<(u16, &[u8])>
    ensures found { IfSome result (λ h. HasHeader bytes.now h.0 h.1.now) }
    ensures other { IfNone result (¬ (BeginsAsComponent bytes.now)) }
{
    match bytes {
        [0, b'a', b's', b'm', low, high, 1, 0, rest @ ..] => {
            Some((u16::from(*low) + 256 * u16::from(*high), rest))
        }
        _ => None,
    }
}
