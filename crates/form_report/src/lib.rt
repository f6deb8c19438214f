// The smallest form, and an opening in it, as plain numbers.
#![tactic(auto)]

ghost use Rattle.std.specs.Prelude.{◌≡◌};
ghost use Rattle.form_report.specs.Report.{form_numbers, form_result, held_numbers, open_form_result};

use form_choice::Chosen;
use layout::Form;
use opening::{FormOpened, Opened};
use refusal::{Code, Refusal};

// refusal is 0 where the call is accepted. Every field that a case does not name is 0.
#[repr(C)]
#[derive(Clone, Copy, Default)]
pub struct FormResult {
    pub refusal: u32,
    pub place: u32,
    pub column: u32,
    pub width: u32,
    pub underflow: u32,
    pub length: u64,
}

#[repr(C)]
#[derive(Clone, Copy)]
pub struct OpenFormResult {
    pub refusal: u32,
    pub place: u32,
    pub column: u32,
    pub rows: u32,
    pub columns: u32,
    pub width: u32,
    pub underflow: u32,
    pub end: u64,
    pub length: u64,
}

// The bytes of a pixel and of an underflow entry.
#[derive(Clone, Copy, Default)]
struct FormNumbers {
    width: u32,
    underflow: u32,
}

fn form_numbers(form: Form) -> FormNumbers
    ensures { result ≡ form_numbers form }
{
    let w = form.width;
    let u = form.underflow;
    FormNumbers {
        width: layout::width_bytes(w) as u32,
        underflow: layout::underflow_bytes(u),
    }
}

// What the smallest form answers.
pub fn form_result(choice: Result<Chosen, Refusal>) -> FormResult
    ensures { result ≡ form_result choice }
{
    match choice {
        Ok(Chosen { form, length }) => {
            let n = form_numbers(form);
            FormResult {
                width: n.width,
                underflow: n.underflow,
                length,
                ..FormResult::default()
            }
        }
        Err(r) => {
            let Code { number, place } = Code::from(r);
            FormResult {
                refusal: number,
                place,
                ..FormResult::default()
            }
        }
    }
}

// The form held, 0 and 0 where nothing is.
fn held_numbers(form: Form, answer: Result<Opened, Refusal>) -> FormNumbers
    ensures { result ≡ held_numbers form answer }
{
    match answer {
        Ok(Opened { held: Ok(_), .. }) => form_numbers(form),
        _ => FormNumbers::default(),
    }
}

// What opening in the smallest form answers.
pub fn open_form_result(opened: FormOpened) -> OpenFormResult
    ensures { result ≡ open_form_result opened }
{
    let FormOpened { form, answer } = opened;
    let n = held_numbers(form, answer);
    let o = frame_report::open_result(answer);
    OpenFormResult {
        refusal: o.refusal,
        place: o.place,
        column: o.column,
        rows: o.rows,
        columns: o.columns,
        width: n.width,
        underflow: n.underflow,
        end: o.end,
        length: o.length,
    }
}
