// The lines of measured images.
ghost use Rattle.pl_io.specs.Puts.{Puts};
ghost use Rattle.penglai_main.specs.Measure.{image_text, measurements_text};

use mon_image::Image;
use pl_base::Failed;
use pl_io::{Piece, Sink, put_pieces};

fn put_measurement<K: Sink>(sink: &mut K, number: usize, image: &Image) -> Result<(), Failed>
    ensures { Puts (K.written sink.old) (K.written sink.new) (K.faults sink.old) (K.faults sink.new) (image_text number image.now) result }
{
    let digest = image.measurement();
    put_pieces(
        sink,
        &[
            Piece::Text(b"image "),
            Piece::Dec(number as u64),
            Piece::Text(b" "),
            Piece::Bytes(&digest),
            Piece::Text(b"\n"),
        ],
    )
}

/// Writes the line `image N DIGEST` for each image, with its number from 0 and 64 hexadecimal digits of its measurement.
pub(crate) fn put_measurements<K: Sink>(sink: &mut K, images: &[Image]) -> Result<(), Failed>
    ensures { Puts (K.written sink.old) (K.written sink.new) (K.faults sink.old) (K.faults sink.new) (measurements_text images.now) result }
{
    for (number, image) in images.iter().enumerate() {
        if put_measurement(sink, number, image).is_err() {
            return Err(Failed);
        }
    }
    Ok(())
}
