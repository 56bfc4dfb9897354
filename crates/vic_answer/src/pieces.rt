//! How a long text is written: in pieces, which wait until there is enough for a write.

ghost use Rattle.vic_answer.specs.inner.Pieces.{Pushes};

use crate::status::RunFault;
use crate::text::ShortText;
use arrayvec::ArrayVec;
use vic_log::{Sink, WRITTEN_AT_ONCE, write_whole};

/// Bytes kept until there are enough for one write.
pub(crate) type Piece = ArrayVec<u8, WRITTEN_AT_ONCE>;

/// Adds a text; the bytes kept are written first if it doesn't fit.
pub(crate) fn push_text<W: Sink>(
    piece: &mut Piece,
    sink: &mut W,
    text: &ShortText,
) -> Result<(), RunFault>
    ensures { Pushes W.Sink sink.old sink.new
        piece.old.items piece.new.items text.now.items result }
{
    if piece.len() + text.len() > WRITTEN_AT_ONCE {
        if write_whole(sink, piece.as_slice()).is_err() {
            return Err(RunFault::Write);
        }
        piece.clear();
    }
    // there is room for any text among no others
    let Ok(()) = piece.try_extend_from_slice(text.as_slice()) else {
        unreachable!()
    };
    Ok(())
}
