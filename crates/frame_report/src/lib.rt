// Answers on frames read, written and opened, as plain numbers, and the form that two numbers ask for.
#![tactic(auto)]

ghost use Rattle.std.specs.Prelude.{◌≡◌};
ghost use Rattle.frame_report.specs.Report.{as_form, asked_form, write_result, held_result, open_result};

use layout::{Form, Frame, Underflow, Width};
use opening::Opened;
use refusal::{Code, Refusal};

// refusal is 0 where the call is accepted. Every field that a case does not name is 0.
#[repr(C)]
#[derive(Clone, Copy, Default)]
pub struct WriteResult {
    pub refusal: u32,
    pub place: u32,
    pub column: u32,
    pub length: u64,
}

#[repr(C)]
#[derive(Clone, Copy, Default)]
pub struct OpenResult {
    pub refusal: u32,
    pub place: u32,
    pub column: u32,
    pub rows: u32,
    pub columns: u32,
    pub end: u64,
    pub length: u64,
}

fn as_form(width: Width, underflow: u32) -> Option<Form>
    ensures { result ≡ as_form width underflow }
{
    if underflow == 0 {
        return Some(Form {
            width,
            underflow: Underflow::None,
        });
    }
    let entry = layout::entry_from(underflow)?;
    Some(Form {
        width,
        underflow: Underflow::Subtracted(entry),
    })
}

// The form of a pixel width and an underflow width, where 0 asks for kind none.
pub fn asked_form(width: u32, underflow: u32) -> Option<Form>
    ensures { result ≡ asked_form width underflow }
{
    as_form(layout::width_from(width)?, underflow)
}

// What writing a frame answers.
pub fn write_result(answer: Result<u64, Refusal>) -> WriteResult
    ensures { result ≡ write_result answer }
{
    match answer {
        Ok(length) => WriteResult {
            length,
            ..WriteResult::default()
        },
        Err(r) => {
            let Code { number, place } = Code::from(r);
            WriteResult {
                refusal: number,
                place,
                ..WriteResult::default()
            }
        }
    }
}

// What was read, and what writing it answers.
fn held_result(read: Frame, written: WriteResult) -> OpenResult
    ensures { result ≡ held_result read written }
{
    OpenResult {
        refusal: written.refusal,
        place: written.place,
        column: written.column,
        rows: read.rows,
        columns: read.columns,
        end: read.end,
        length: written.length,
    }
}

// What opening a frame answers.
pub fn open_result(answer: Result<Opened, Refusal>) -> OpenResult
    ensures { result ≡ open_result answer }
{
    match answer {
        Ok(Opened { frame, held }) => held_result(frame, write_result(held)),
        Err(r) => held_result(Frame::default(), write_result(Err(r))),
    }
}
