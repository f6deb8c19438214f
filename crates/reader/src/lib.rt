// Reading a frame of FORMAT 100 or 86: any bytes give pixels or one refusal.
#![tactic(auto)]

ghost use Rattle.std.specs.Prelude.{◌≡◌, length};
ghost use Rattle.reader.specs.Reader.{frame_answer, frame_pixels, read_answer, read_pixels};

use layout::{Frame, Header, Image, Tables};
use refusal::Refusal;

// The frame behind an accepted header.
fn read_frame(frame: &[u8], header: Header, pixels: &mut [u32]) -> Result<Frame, Refusal>
    ensures value { result ≡ frame_answer frame.now header (length pixels.old) }
    ensures pixels_after { pixels.new ≡ frame_pixels frame.now header pixels.old }
{
    let Header { image, tables } = header;
    let end = match tables {
        Tables::Format86 { entries } => overflow86::expand86(frame, image, entries, pixels)?,
        Tables::Format100(t) => expand::expand(frame, image, t, pixels)?,
    };
    Ok(Frame {
        rows: image.rows,
        columns: image.columns,
        end,
    })
}

// The frame at the front of the bytes, into the start of the pixel array.
#[tactic(auto, unfolding(crate::specs::Reader::read_answer, crate::specs::Reader::read_pixels))]
pub fn read(frame: &[u8], pixels: &mut [u32]) -> Result<Frame, Refusal>
    ensures value { result ≡ read_answer frame.now (length pixels.old) }
    ensures pixels_after { pixels.new ≡ read_pixels frame.now pixels.old }
{
    let header = header::read_header(frame)?;
    read_frame(frame, header, pixels)
}
