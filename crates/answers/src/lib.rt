// The C interface's answer to a reading, whatever the file's format.
#![tactic(auto)]

ghost use Rattle.std.specs.Prelude.{◌≡◌};
ghost use Rattle.answers.specs.Read.{read_refused, read_accepted, read_result};

use layout::Frame;
use refusal::{Code, Refusal};

// refusal is 0 where the file is accepted. Every field that a case does not name is 0.
#[repr(C)]
#[derive(Clone, Copy, Default)]
pub struct ReadResult {
    pub refusal: u32,
    pub place: u32,
    pub column: u32,
    pub rows: u32,
    pub columns: u32,
    pub end: u64,
}

pub fn read_accepted(rows: u32, columns: u32, end: u64) -> ReadResult
    ensures { result ≡ read_accepted rows columns end }
{
    ReadResult {
        rows,
        columns,
        end,
        ..ReadResult::default()
    }
}

pub fn read_refused(r: Refusal) -> ReadResult
    ensures { result ≡ read_refused r }
{
    let Code { number, place } = Code::from(r);
    ReadResult {
        refusal: number,
        place,
        ..ReadResult::default()
    }
}

// What reading a file answers.
pub fn read_result(answer: Result<Frame, Refusal>) -> ReadResult
    ensures { result ≡ read_result answer }
{
    match answer {
        Ok(Frame { rows, columns, end }) => read_accepted(rows, columns, end),
        Err(r) => read_refused(r),
    }
}
