// What a d*TREK file says, as plain numbers.
#![tactic(auto)]

ghost use Rattle.std.specs.Prelude.{◌≡◌, length};
ghost use Rattle.dtrek_text.specs.Scan.{item_from};
ghost use Rattle.dtrek_header.specs.DtrekHeader.{Bounded, dtrek_header};
ghost use Rattle.answers.specs.Read.{read_result};
ghost use Rattle.dtrek_image.specs.DtrekImage.{dtrek_answer, dtrek_pixels};
ghost use Rattle.dtrek_report.specs.Report.{big_endian, report_accepted, report_refused, dtrek_report};
ghost use Rattle.dtrek_report.specs.Item.{value_start, value_end, item_refused, no_item, item_scanned, dtrek_item};

use answers::ReadResult;
use byte_order::ByteOrder;
use dtrek_header::DtrekHeader;
use dtrek_text::{Cursor, Scanned};
use refusal::Refusal;

// refusal is 0 where the header is accepted; else every other field is 0.
#[repr(C)]
#[derive(Clone, Copy, Default)]
pub struct DtrekHeaderReport {
    pub refusal: u32,
    pub start: u32,
    pub rows: u32,
    pub columns: u32,
    pub width: u32,
    pub big_endian: u32,
    pub end: u64,
}

// found is 1 where an item was read; a field that does not apply is 0.
#[repr(C)]
#[derive(Clone, Copy, Default)]
pub struct DtrekItemReport {
    pub refusal: u32,
    pub found: u32,
    pub key_start: u64,
    pub key_end: u64,
    pub value_start: u64,
    pub value_end: u64,
    pub next: u64,
}

// The image of a d*TREK file, into the start of the pixel array.
pub fn read(file: &[u8], pixels: &mut [u32]) -> ReadResult
    ensures value { result ≡ read_result (dtrek_answer file.now (length pixels.old)) }
    ensures pixels_after { pixels.new ≡ dtrek_pixels file.now pixels.old }
{
    answers::read_result(dtrek_image::read(file, pixels))
}

fn big_endian(order: ByteOrder) -> u32
    ensures { result ≡ big_endian order }
{
    match order {
        ByteOrder::Little => 0,
        ByteOrder::Big => 1,
    }
}

fn report_accepted(h: DtrekHeader) -> DtrekHeaderReport
    requires { Bounded h }
    ensures { result ≡ report_accepted h }
{
    let DtrekHeader { image, order } = h;
    let each = layout::width_bytes(image.width);
    let bytes = layout::pixel_count(image) * each;
    DtrekHeaderReport {
        refusal: 0,
        start: image.start,
        rows: image.rows,
        columns: image.columns,
        width: each as u32,
        big_endian: big_endian(order),
        end: image.start as u64 + bytes as u64,
    }
}

fn report_refused(r: Refusal) -> DtrekHeaderReport
    ensures { result ≡ report_refused r }
{
    DtrekHeaderReport {
        refusal: refusal::number_of(r),
        ..DtrekHeaderReport::default()
    }
}

// What the header of a d*TREK file says.
pub fn report(file: &[u8]) -> DtrekHeaderReport
    ensures { result ≡ dtrek_report (dtrek_header file.now) }
{
    match dtrek_header::read_header(file) {
        Ok(h) => report_accepted(h),
        Err(r) => report_refused(r),
    }
}

fn item_refused(r: Refusal) -> DtrekItemReport
    ensures { result ≡ item_refused r }
{
    DtrekItemReport {
        refusal: refusal::number_of(r),
        ..DtrekItemReport::default()
    }
}

// The item of the header from a place on.
fn item_from(header: &[u8], at: usize) -> DtrekItemReport
    ensures { result ≡ item_scanned header.now (item_from header.now at) }
{
    let c = Cursor { at };
    match c.item(header) {
        Scanned::Found {
            start,
            end,
            stop,
            next,
        } => {
            let from = end + 1;
            let value = from + dtrek_text::white_run(&header[from..stop]);
            DtrekItemReport {
                refusal: 0,
                found: 1,
                key_start: start as u64,
                key_end: end as u64,
                value_start: value as u64,
                value_end: (value + dtrek_text::trim(&header[from..stop]).len()) as u64,
                next: next.at as u64,
            }
        }
        Scanned::Bad => item_refused(Refusal::BadSyntax),
        Scanned::Last => DtrekItemReport::default(),
    }
}

// The item of a d*TREK file's header from byte `at` on: 1 for the first, and then `next` of the last answer.
pub fn item(file: &[u8], at: u64) -> DtrekItemReport
    ensures { result ≡ dtrek_item file.now at }
{
    let Some(n) = dtrek_header::header_length(file) else {
        return item_refused(Refusal::BadHeaderStart);
    };
    let length = n as usize;
    if file.len() < length {
        return item_refused(Refusal::HeaderTruncated);
    }
    item_from(&file[..length], at as usize)
}
