//! The bytes of a slice, also of one that ends after the text: none of its readers needs to know that it lies in the text.
ghost use Rattle.std.specs.Prelude.{◌≡◌};
ghost use Rattle.query_marks.specs.LimitNames.{bytes_of as bytes_in};

use query_pieces::Slice;

/// The bytes of a slice.
pub(crate) fn bytes_of(text: &[u8], slice: Slice) -> &[u8]
    ensures { result.now ≡ bytes_in text.now slice }
{
    let to = slice.to.min(text.len());
    if slice.from < to {
        &text[slice.from..to]
    } else {
        &text[..0]
    }
}
