// Texts of several pieces.
ghost use Rattle.pl_io.specs.Puts.{Puts};
ghost use Rattle.pl_io.specs.Pieces.{piece_text, pieces_text};

use crate::outside::Sink;
use crate::writing::{put_bytes, put_dec, put_hex, put_short};
use pl_base::Failed;

/// A piece of a text.
#[derive(Clone, Copy, Debug)]
pub enum Piece<'a> {
    /// These bytes.
    Text(&'a [u8]),
    /// A number in decimal.
    Dec(u64),
    /// A number in hexadecimal with 16 digits.
    Hex(u64),
    /// A number in hexadecimal without leading zeros.
    Short(u64),
    /// Two hexadecimal digits for each byte.
    Bytes(&'a [u8]),
}

fn put_piece<K: Sink>(sink: &mut K, piece: &Piece<'_>) -> Result<(), Failed>
    ensures { Puts (K.written sink.old) (K.written sink.new) (K.faults sink.old) (K.faults sink.new) (piece_text piece.now) result }
{
    match *piece {
        Piece::Text(text) => sink.put(text),
        Piece::Dec(value) => put_dec(sink, value),
        Piece::Hex(value) => put_hex(sink, value),
        Piece::Short(value) => put_short(sink, value),
        Piece::Bytes(bytes) => put_bytes(sink, bytes),
    }
}

/// Writes the pieces, one after the other.
pub fn put_pieces<K: Sink>(sink: &mut K, pieces: &[Piece<'_>]) -> Result<(), Failed>
    ensures { Puts (K.written sink.old) (K.written sink.new) (K.faults sink.old) (K.faults sink.new) (pieces_text pieces.now) result }
{
    for piece in pieces {
        if put_piece(sink, piece).is_err() {
            return Err(Failed);
        }
    }
    Ok(())
}
