// Answers on a mar image plate as plain numbers.
#![tactic(auto)]

ghost use Rattle.std.specs.Prelude.{◌≡◌, length};
ghost use Rattle.answers.specs.Read.{read_result};
ghost use Rattle.mar_image.specs.MarImage.{mar_answer, mar_pixels};
ghost use Rattle.mar_report.specs.Report.{value_result, mar_entry_result};

use answers::ReadResult;
use mar_entry::EntryValue;
use refusal::Refusal;

// refusal is 0 where the entry is answered. Every field that a case does not name is 0.
#[repr(C)]
#[derive(Clone, Copy, Default)]
pub struct MarEntryResult {
    pub refusal: u32,
    pub is_float: u32,
    pub bits: u32,
}

// The image of a mar plate, into the start of the pixel array.
pub fn read(file: &[u8], pixels: &mut [u32]) -> ReadResult
    ensures value { result ≡ read_result (mar_answer file.now (length pixels.old)) }
    ensures pixels_after { pixels.new ≡ mar_pixels file.now pixels.old }
{
    answers::read_result(mar_image::read(file, pixels))
}

fn value_result(value: EntryValue) -> MarEntryResult
    ensures { result ≡ value_result value }
{
    match value {
        EntryValue::Whole(bits) => MarEntryResult {
            bits,
            ..MarEntryResult::default()
        },
        EntryValue::Float { bits, value: _ } => MarEntryResult {
            is_float: 1,
            bits,
            ..MarEntryResult::default()
        },
    }
}

// What a question for an entry answers.
pub fn mar_entry_result(answer: Result<EntryValue, Refusal>) -> MarEntryResult
    ensures { result ≡ mar_entry_result answer }
{
    match answer {
        Ok(v) => value_result(v),
        Err(r) => MarEntryResult {
            refusal: refusal::number_of(r),
            ..MarEntryResult::default()
        },
    }
}
