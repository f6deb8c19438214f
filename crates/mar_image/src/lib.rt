// Reading an uncompressed mar image plate: any bytes give pixels or one refusal.
#![tactic(auto)]

ghost use Rattle.std.specs.Prelude.{◌≡◌, ◌+◌, ◌*◌, ◌≤◌, length, drop};
ghost use Rattle.byte_order.specs.Numbers.{numbers};
ghost use Rattle.marks.specs.Steps.{placing, placed};
ghost use Rattle.mar_image.specs.Pairs.{pair_entry, pair_at, pair_entries};
ghost use Rattle.mar_image.specs.MarImage.{checked_pairs, plate_pixels, image_answer, image_pixels, mar_answer, mar_pixels};

use byte_order::ByteOrder;
use layout::{Frame, Width};
use mar_header::MarHeader;
use marks::Entry;
use refusal::Refusal;

#[tactic(auto, unfolding(crate::specs::Pairs::pair_entry))]
fn pair_entry(address: u32, count: u32) -> Option<Entry>
    ensures { result ≡ pair_entry address count }
{
    if address == 0 || count <= 65535 {
        return None;
    }
    Some(Entry {
        intensity: count,
        pixel: address - 1,
    })
}

// The pair whose 8 bytes start at `at`.
fn pair_at(table: &[u8], order: ByteOrder, at: usize) -> Option<Entry>
    requires { at ≤ length table.now }
    ensures { result ≡ pair_at order (drop at table.now) }
{
    let pair = &table[at..];
    let address = byte_order::number_at(pair, order, 0);
    let count = byte_order::number_at(pair, order, 1);
    pair_entry(address, count)
}

// Takes the n pairs of the table in file order; the first bad one decides. A pixel of 65535 waits, and no count is 65535.
fn place_pairs(table: &[u8], order: ByteOrder, n: u32, pixels: &mut [u32]) -> Result<(), Refusal>
    requires { n * 8 ≤ length table.now }
    ensures value { result ≡ placing 65535 pixels.old 0 (pair_entries order n table.now) }
    ensures pixels_after { pixels.new ≡ placed 65535 pixels.old (pair_entries order n table.now) }
{
    for k in 0..n {
        let e = pair_at(table, order, k as usize * 8);
        if !marks::place_entry(e, 65535, pixels) {
            return Err(Refusal::BadEntry { entry: k });
        }
    }
    Ok(())
}

// The whole array, from the image's bytes and those of the records of pairs.
fn fill(
    image: &[u8],
    order: ByteOrder,
    table: &[u8],
    n: u32,
    pixels: &mut [u32],
) -> Result<(), Refusal>
    requires { (length pixels.old * 2 ≤ length image.now) × (n * 8 ≤ length table.now) }
    ensures value { result ≡ checked_pairs (numbers order 2 (length pixels.old) image.now) (pair_entries order n table.now) }
    ensures pixels_after { pixels.new ≡ plate_pixels (numbers order 2 (length pixels.old) image.now) (pair_entries order n table.now) }
{
    byte_order::load_halves(image, order, Width::Two, pixels);
    let checked = place_pairs(table, order, n, pixels);
    if checked.is_err() {
        pixels.fill(0);
    }
    checked
}

// The image behind an accepted header.
fn read_image(file: &[u8], header: MarHeader, pixels: &mut [u32]) -> Result<Frame, Refusal>
    ensures value { result ≡ image_answer file.now header (length pixels.old) }
    ensures pixels_after { pixels.new ≡ image_pixels file.now header pixels.old }
{
    let MarHeader { order, side, pairs } = header;
    let width = mar_header::side_pixels(side);
    let row = width as usize;
    let n = row * row;
    if pixels.len() < n {
        return Err(Refusal::PixelArrayShort);
    }
    let start = row * 2;
    let table = start + n * 2;
    let end = table + mar_header::records_for(side, pairs) as usize * start;
    if file.len() < end {
        return Err(Refusal::DataTruncated);
    }
    fill(
        &file[start..table],
        order,
        &file[table..end],
        pairs,
        &mut pixels[..n],
    )?;
    Ok(Frame {
        rows: width,
        columns: width,
        end: end as u64,
    })
}

// The image of a mar file, into the start of the pixel array.
#[tactic(auto, unfolding(crate::specs::MarImage::mar_answer, crate::specs::MarImage::mar_pixels))]
pub fn read(file: &[u8], pixels: &mut [u32]) -> Result<Frame, Refusal>
    ensures value { result ≡ mar_answer file.now (length pixels.old) }
    ensures pixels_after { pixels.new ≡ mar_pixels file.now pixels.old }
{
    let header = mar_header::read_header(file)?;
    read_image(file, header, pixels)
}
