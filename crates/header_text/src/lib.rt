// The two header lines that a frame's counts and widths stand in: written, and compared with what would be written.
#![tactic(auto)]

ghost use Rattle.std.specs.Prelude.{◌≡◌, ◌+◌, ◌*◌, ◌++◌, ◌≤◌, length, drop, leb, if◌then◌else◌};
ghost use Rattle.lists.specs.Text.{codes};
ghost use Rattle.lists.specs.Bytes.{same_bytes};
ghost use Rattle.lists.specs.Digits.{digits_up_to, decimal};
ghost use Rattle.header_lines.specs.Lines.{position_of};
ghost use Rattle.header_text.specs.Text.{cell, underflow_text, counts_data, npixelb_data, relined, lines_written};

use header_lines::LineId;
use layout::{Form, Underflow};

// How many pixels underflow, and how many are 255 and 65535 above the baseline.
#[derive(Clone, Copy)]
pub struct Counts {
    pub under: u32,
    pub two: u32,
    pub four: u32,
}

// The last k digits of n at the front of out, with no zeros at the left. The answer: how many. By hand, since write! would take a writer
// over the slice, which is longer than this.
fn put_digits(n: u32, k: usize, out: &mut [u8]) -> usize
    requires { k ≤ length out.old }
    ensures value { result ≡ length (digits_up_to k n) }
    ensures out_after { out.new ≡ digits_up_to k n ++ drop (length (digits_up_to k n)) out.old }
{
    if k == 0 {
        return 0;
    }
    let digit = 48 + (n % 10) as u8;
    if n < 10 {
        out[0] = digit;
        return 1;
    }
    let before = put_digits(n / 10, k - 1, out);
    out[before] = digit;
    before + 1
}

// A number at the left of a cell.
#[tactic(auto, using(crate::proofs::Cells::drop_spaces), unfolding(crate::specs::Text::cell))]
fn put_number(n: u32, out: &mut [u8])
    requires { length out.old ≡ 24 }
    ensures { out.new ≡ cell (decimal n) }
{
    table::fill(out, b' ');
    put_digits(n, 10, out);
}

// The cell of the underflow count.
#[tactic(auto, unfolding(crate::specs::Text::cell))]
fn put_underflow_count(u: Underflow, n: u32, out: &mut [u8])
    requires { length out.old ≡ 24 }
    ensures { out.new ≡ cell (underflow_text u n) }
{
    match u {
        Underflow::None => {
            table::fill(out, b' ');
            out[..2].copy_from_slice(b"-1");
        }
        Underflow::Subtracted(_) => put_number(n, out),
    }
}

// The data of NOVERFL: three cells.
fn put_noverfl(u: Underflow, c: Counts, out: &mut [u8])
    requires { length out.old ≡ 72 }
    ensures { out.new ≡ counts_data u c }
{
    put_underflow_count(u, c.under, &mut out[0..24]);
    put_number(c.two, &mut out[24..48]);
    put_number(c.four, &mut out[48..72]);
}

// The data of NPIXELB: two cells, and spaces in the third.
fn put_npixelb(form: Form, out: &mut [u8])
    requires { length out.old ≡ 72 }
    ensures { out.new ≡ npixelb_data form }
{
    table::fill(out, b' ');
    put_number(layout::width_bytes(form.width) as u32, &mut out[0..24]);
    put_number(layout::underflow_bytes(form.underflow), &mut out[24..48]);
}

// Where a line's data starts.
fn data_start(id: LineId) -> usize
    ensures { result ≡ position_of id * 80 + 8 }
{
    header_lines::position_of(id) as usize * 80 + 8
}

// The header's two lines, in place.
#[tactic(auto, unfolding(header_lines::specs::Lines::line_of))]
fn put_lines(header: &mut [u8], form: Form, c: Counts)
    requires { 3200 ≤ length header.old }
    ensures { header.new ≡ relined form c header.old }
{
    let noverfl = data_start(LineId::Noverfl);
    let npixelb = data_start(LineId::Npixelb);
    put_noverfl(form.underflow, c, &mut header[noverfl..noverfl + 72]);
    put_npixelb(form, &mut header[npixelb..npixelb + 72]);
}

// NOVERFL and NPIXELB for these counts, where the bytes reach to the end of both.
pub fn rewrite(header: &mut [u8], form: Form, c: Counts)
    ensures { header.new ≡ if◌then◌else◌ (leb 3200 (length header.old)) (relined form c header.old) header.old }
{
    if 3200 <= header.len() {
        put_lines(header, form, c);
    }
}

// Whether a line's data is NOVERFL's for these counts.
#[tactic(auto, using(crate::proofs::Lines::pointwise_same))]
fn is_noverfl(text: &[u8], u: Underflow, c: Counts) -> bool
    requires { length text.now ≡ 72 }
    ensures { result ≡ same_bytes text.now (counts_data u c) }
{
    let mut counts = [0u8; 72];
    put_noverfl(u, c, &mut counts);
    text == counts.as_slice()
}

// Whether a line's data is NPIXELB's for this form.
#[tactic(auto, using(crate::proofs::Lines::pointwise_same))]
fn is_npixelb(text: &[u8], form: Form) -> bool
    requires { length text.now ≡ 72 }
    ensures { result ≡ same_bytes text.now (npixelb_data form) }
{
    let mut widths = [0u8; 72];
    put_npixelb(form, &mut widths);
    text == widths.as_slice()
}

// Whether NOVERFL and NPIXELB are there, as `rewrite` writes them for these counts.
#[tactic(auto, unfolding(crate::specs::Text::lines_written, header_lines::specs::Lines::line_of))]
pub fn is_rewritten(header: &[u8], form: Form, c: Counts) -> bool
    ensures { result ≡ lines_written form c header.now }
{
    if header.len() < 3200 {
        return false;
    }
    let noverfl = data_start(LineId::Noverfl);
    let npixelb = data_start(LineId::Npixelb);
    is_noverfl(&header[noverfl..noverfl + 72], form.underflow, c)
        && is_npixelb(&header[npixelb..npixelb + 72], form)
}
