// The text of a ledger's listing.
//
// A line is cancelled by lines after it, so the text is written from its last line to its first, and stands at the buffer's end.
#![tactic(auto)]

ghost use Rattle.std.specs.Prelude.{◌≡◌, false, ◌++◌, ◌+◌, ◌*◌, ◌/◌, ◌^◌, ◌<◌, ◌≤◌, length};
ghost use Rattle.ledger.specs.Lines.{lines_of, some_malformed};
ghost use Rattle.listing.specs.Writing.{Wrote};
ghost use Rattle.listing.specs.Listing.{digits, date_text, counts_text, kind_text, end_text, line_text, lines_text, standing_text, refused_text, lines_listed, shown_answer, shown_bytes, list_answer, list_bytes, step_back};
ghost use Rattle.lists.specs.Digits.{decimal};

use calendar::Date;
use ledger::{Kind, Line};

#[derive(Clone, Copy)]
struct Step {
    pub cancelled: bool,
    pub skip: usize,
}

// These functions write a text to the end of a buffer, and answer where it starts.
fn put_text(out: &mut [u8], s: &[u8]) -> usize
    requires { length s.now ≤ length out.old }
    ensures { Wrote out.old (length out.old) out.new result s.now }
{
    let start = out.len() - s.len();
    out[start..].copy_from_slice(s);
    start
}

fn put_digits(out: &mut [u8], count: usize, n: u32) -> usize
    requires { count ≤ length out.old }
    ensures { Wrote out.old (length out.old) out.new result (digits count n) }
{
    let start = out.len() - count;
    let mut rest = n;
    for left in (0..count).rev() {
        out[start + left] = b'0' + (rest % 10) as u8;
        rest /= 10;
    }
    start
}

fn put_decimal(out: &mut [u8], n: u32) -> usize
    requires { 10 ≤ length out.old }
    ensures { Wrote out.old (length out.old) out.new result (decimal n) }
{
    let longest = out.len() - 10;
    let mut rest = n;
    for left in (0..10).rev() {
        out[longest + left] = b'0' + (rest % 10) as u8;
        if rest < 10 {
            return longest + left;
        }
        rest /= 10;
    }
    longest
}

fn put_date(out: &mut [u8], d: Date) -> usize
    requires { 10 ≤ length out.old }
    ensures { Wrote out.old (length out.old) out.new result (date_text d) }
{
    let day = put_digits(out, 2, d.day);
    let second = put_text(&mut out[..day], b"-");
    let month = put_digits(&mut out[..second], 2, d.month);
    let first = put_text(&mut out[..month], b"-");
    put_digits(&mut out[..first], 4, d.year)
}

fn put_counts(out: &mut [u8], l: Line) -> usize
    requires { 32 ≤ length out.old }
    ensures { Wrote out.old (length out.old) out.new result (counts_text l) }
{
    let new = put_decimal(out, l.new);
    let second = put_text(&mut out[..new], b" ");
    let old = put_decimal(&mut out[..second], l.old);
    let first = put_text(&mut out[..old], b" ");
    put_decimal(&mut out[..first], l.pixel)
}

fn put_kind(out: &mut [u8], l: Line) -> usize
    requires { 41 ≤ length out.old }
    ensures { Wrote out.old (length out.old) out.new result (kind_text l.kind l) }
{
    match l.kind {
        Kind::Correction => {
            let counts = put_counts(out, l);
            put_text(&mut out[..counts], b" correct ")
        }
        Kind::Keep => {
            let until = put_date(out, l.date);
            put_text(&mut out[..until], b" keep ")
        }
        Kind::Withdrawal => put_text(out, b" withdraw"),
    }
}

fn put_end(out: &mut [u8], cancelled: bool) -> usize
    requires { 11 ≤ length out.old }
    ensures { Wrote out.old (length out.old) out.new result (end_text cancelled) }
{
    let end = put_text(out, b"\n");
    if cancelled {
        return put_text(&mut out[..end], b" withdrawn");
    }
    end
}

fn put_line(out: &mut [u8], number: u32, l: Line, cancelled: bool) -> usize
    requires { 80 ≤ length out.old }
    ensures { Wrote out.old (length out.old) out.new result (line_text number l cancelled) }
{
    let end = put_end(out, cancelled);
    let kind = put_kind(&mut out[..end], l);
    let first = put_decimal(&mut out[..kind], number);
    put_text(&mut out[..first], b"line ")
}

fn put_standing(out: &mut [u8], count: u32) -> usize
    requires { 20 ≤ length out.old }
    ensures { Wrote out.old (length out.old) out.new result (standing_text count) }
{
    let end = put_text(out, b"\n");
    let first = put_decimal(&mut out[..end], count);
    put_text(&mut out[..first], b"standing ")
}

#[tactic(auto, unfolding(crate::specs::Listing::step_back))]
fn step_back(skip: usize, l: Line) -> Step
    requires { skip + 1 < 2 ^ 64 }
    ensures { result ≡ step_back skip l }
{
    if l.kind == Kind::Withdrawal {
        return Step {
            cancelled: false,
            skip: skip + 1,
        };
    }
    if 0 < skip {
        return Step {
            cancelled: true,
            skip: skip - 1,
        };
    }
    Step {
        cancelled: false,
        skip: 0,
    }
}

// The lines of the listing, from the last to the first.
fn put_lines(out: &mut [u8], ledger: &[u8], lines: usize) -> usize
    requires { (lines ≤ 4096) × (lines * 80 ≤ length out.old) × (some_malformed lines ledger.now ≡ false) }
    ensures { Wrote out.old (length out.old) out.new result (lines_text 1 (lines_of lines ledger.now)) }
{
    let mut place = out.len();
    let mut skip: usize = 0;
    for i in (0..lines).rev() {
        let Some(line) = ledger::line_at(ledger, i) else {
            return place;
        };
        let step = step_back(skip, line);
        place = put_line(&mut out[..place], (i + 1) as u32, line, step.cancelled);
        skip = step.skip;
    }
    place
}

fn put_refused(out: &mut [u8]) -> Option<usize>
    ensures value { result ≡ shown_answer (length out.old) 32 refused_text }
    ensures out_after { out.new ≡ shown_bytes out.old 32 refused_text }
{
    let end = out.len();
    if end < 32 {
        return None;
    }
    let start = put_text(out, b"refused 20\n");
    Some(end - start)
}

fn put_listing(out: &mut [u8], ledger: &[u8], lines: usize, count: u32) -> Option<usize>
    requires { (lines ≤ 4096) × (some_malformed lines ledger.now ≡ false) }
    ensures value { result ≡ shown_answer (length out.old) (32 + lines * 80) (lines_text 1 (lines_of lines ledger.now) ++ standing_text count) }
    ensures out_after { out.new ≡ shown_bytes out.old (32 + lines * 80) (lines_text 1 (lines_of lines ledger.now) ++ standing_text count) }
{
    let end = out.len();
    if end < 32 + lines * 80 {
        return None;
    }
    let last = put_standing(out, count);
    let start = put_lines(&mut out[..last], ledger, lines);
    Some(end - start)
}

// The listing of a whole ledger. The buffer has 32 bytes and 80 for each line, or nothing is written.
pub fn list(ledger: &[u8], out: &mut [u8]) -> Option<usize>
    ensures value { result ≡ list_answer ledger.now (length out.old) }
    ensures out_after { out.new ≡ list_bytes ledger.now out.old }
{
    if ledger.len() % 16 != 0 || 65536 < ledger.len() {
        return put_refused(out);
    }
    let lines = ledger.len() / 16;
    let Some(summary) = ledger::survey(ledger, lines as u64) else {
        return put_refused(out);
    };
    put_listing(out, ledger, lines, summary.count as u32)
}
