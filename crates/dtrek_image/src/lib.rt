// Reading a d*TREK image: any bytes give pixels or one refusal.
#![tactic(auto)]

ghost use Rattle.std.specs.Prelude.{◌≡◌, length};
ghost use Rattle.dtrek_image.specs.DtrekImage.{image_answer, image_pixels, dtrek_answer, dtrek_pixels};

use dtrek_header::DtrekHeader;
use layout::Frame;
use refusal::Refusal;

// The image behind an accepted header.
fn read_image(file: &[u8], header: DtrekHeader, pixels: &mut [u32]) -> Result<Frame, Refusal>
    ensures value { result ≡ image_answer file.now header (length pixels.old) }
    ensures pixels_after { pixels.new ≡ image_pixels file.now header pixels.old }
{
    let DtrekHeader { image, order } = header;
    let width = image.width;
    let n = layout::pixel_count(image);
    if pixels.len() < n {
        return Err(Refusal::PixelArrayShort);
    }
    let start = image.start as usize;
    let end = start + n * layout::width_bytes(width);
    if file.len() < end {
        return Err(Refusal::DataTruncated);
    }
    byte_order::load_halves(&file[start..end], order, width, &mut pixels[..n]);
    Ok(Frame {
        rows: image.rows,
        columns: image.columns,
        end: end as u64,
    })
}

// The image of a d*TREK file, into the start of the pixel array.
#[tactic(auto, unfolding(crate::specs::DtrekImage::dtrek_answer, crate::specs::DtrekImage::dtrek_pixels))]
pub fn read(file: &[u8], pixels: &mut [u32]) -> Result<Frame, Refusal>
    ensures value { result ≡ dtrek_answer file.now (length pixels.old) }
    ensures pixels_after { pixels.new ≡ dtrek_pixels file.now pixels.old }
{
    let header = dtrek_header::read_header(file)?;
    read_image(file, header, pixels)
}
