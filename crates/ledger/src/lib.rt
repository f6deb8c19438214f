// The ledger: its lines in bytes, which of them stand, keep entries and purge questions.
#![tactic(auto)]

ghost use Rattle.std.specs.Prelude.{◌≡◌, ◌+◌, ◌*◌, ◌^◌, ◌<◌, ◌≤◌, length};
ghost use Rattle.ledger.specs.Lines.{kind_from, is_no_date, no_counts, right_for, fields_of, line_from, line_of, line_number, bytes_at};
ghost use Rattle.ledger.specs.Ledger.{is_sought, survey_for, survey_of, with_line, append_answer, append_bytes, keep_answer, keep_bytes, purge_by, purge_answer};
ghost use Rattle.ledger.specs.Survey.{scan_back, found_at};

use calendar::Date;
use refusal::Refusal;

#[derive(Clone, Copy, PartialEq, Eq)]
pub enum Kind {
    Correction,
    Keep,
    Withdrawal,
}

// A line. What its kind does not use is 0.
#[derive(Clone, Copy)]
pub struct Line {
    pub kind: Kind,
    pub date: Date,
    pub pixel: u32,
    pub old: u32,
    pub new: u32,
}

// A line that was looked for, with its index.
#[derive(Clone, Copy)]
pub struct Found {
    pub index: usize,
    pub line: Line,
}

// What is looked for among the lines that stand: a keep line, or a correction of a pixel.
#[derive(Clone, Copy)]
pub enum Sought {
    Keep,
    Correction { pixel: u64 },
}

// Of the lines that stand: the last, the last of those that are looked for, and how many they are.
#[derive(Clone, Copy)]
pub struct Summary {
    pub last: Option<Found>,
    pub sought: Option<Found>,
    pub count: usize,
}

// What a survey knows on its way from the last line back to the first. It notes lines by their index: whole lines in it cost half as much time again.
#[derive(Clone, Copy)]
struct Scan {
    pub skip: usize,
    pub count: usize,
    pub last: Option<usize>,
    pub sought: Option<usize>,
}

// The lowest bit of each field.
const KIND: u128 = 1 << 126;

const YEAR: u128 = 1 << 114;

const MONTH: u128 = 1 << 110;

const DAY: u128 = 1 << 105;

const PIXEL: u128 = 1 << 81;

const OLD: u128 = 1 << 49;

const NEW: u128 = 1 << 17;

// The number of a withdrawal.
const WITHDRAWAL: u128 = 2 << 126;

// Total, by its definition: numbers from 2 on are a withdrawal, so neither From nor TryFrom would say it.
#[tactic(auto, unfolding(crate::specs::Lines::kind_from))]
fn kind_from(k: u128) -> Kind
    ensures { result ≡ kind_from k }
{
    match k {
        0 => Kind::Correction,
        1 => Kind::Keep,
        _ => Kind::Withdrawal,
    }
}

#[tactic(auto, unfolding(crate::specs::Lines::fields_of))]
fn fields_of(n: u128) -> Line
    ensures { result ≡ fields_of n }
{
    let date = Date {
        year: (n / YEAR % 4096) as u32,
        month: (n / MONTH % 16) as u32,
        day: (n / DAY % 32) as u32,
    };
    Line {
        kind: kind_from(n / KIND),
        date,
        pixel: (n / PIXEL % 16777216) as u32,
        old: (n / OLD % 4294967296) as u32,
        new: (n / NEW % 4294967296) as u32,
    }
}

fn is_no_date(d: Date) -> bool
    ensures { result ≡ is_no_date d }
{
    d.year == 0 && d.month == 0 && d.day == 0
}

fn has_no_counts(l: Line) -> bool
    ensures { result ≡ no_counts l }
{
    l.pixel == 0 && l.old == 0 && l.new == 0
}

// Whether the fields are what the kind asks.
#[tactic(auto, unfolding(crate::specs::Lines::right_for))]
fn is_right(l: Line) -> bool
    ensures { result ≡ right_for l.kind l }
{
    match l.kind {
        Kind::Correction => is_no_date(l.date),
        Kind::Keep => calendar::is_date(l.date) && has_no_counts(l),
        Kind::Withdrawal => is_no_date(l.date) && has_no_counts(l),
    }
}

#[tactic(auto, unfolding(crate::specs::Lines::line_from, crate::specs::Lines::is_line))]
fn line_from(n: u128) -> Option<Line>
    ensures { result ≡ line_from n }
{
    let line = fields_of(n);
    (n / KIND < 3 && n % NEW == 0 && is_right(line)).then_some(line)
}

// The line with this index; malformed where the bytes do not hold it whole.
pub fn line_at(ledger: &[u8], index: usize) -> Option<Line>
    ensures { result ≡ line_of (bytes_at ledger.now index) }
{
    let (lines, _) = ledger.as_chunks::<16>();
    line_from(u128::from_be_bytes(*lines.get(index)?))
}

// Corrections and withdrawals, of which most ledgers are, take two tests each. A survey alone calls this, so that it becomes part of its loop.
fn line_of_number(n: u128) -> Option<Line>
    ensures { result ≡ line_from n }
{
    if n < DAY {
        return (n % NEW == 0).then_some(fields_of(n));
    }
    if n == WITHDRAWAL {
        return Some(fields_of(n));
    }
    line_from(n)
}

#[tactic(auto, unfolding(crate::specs::Lines::line_number))]
fn line_number(l: Line) -> u128
    ensures { result ≡ line_number l }
{
    l.kind as u128 * KIND
        + u128::from(l.date.year % 4096) * YEAR
        + u128::from(l.date.month % 16) * MONTH
        + u128::from(l.date.day % 32) * DAY
        + u128::from(l.pixel % 16777216) * PIXEL
        + u128::from(l.old) * OLD
        + u128::from(l.new) * NEW
}

// Writes the line with this index.
fn put_line(ledger: &mut [u8], index: usize, line: Line)
    requires { index * 16 + 16 ≤ length ledger.old }
    ensures { ledger.new ≡ with_line ledger.old index line }
{
    let at = index * 16;
    ledger[at..at + 16].copy_from_slice(&line_number(line).to_be_bytes());
}

fn is_sought(sought: Sought, line: Line) -> bool
    ensures { result ≡ is_sought sought line }
{
    match sought {
        Sought::Keep => line.kind == Kind::Keep,
        Sought::Correction { pixel } => {
            line.kind == Kind::Correction && u64::from(line.pixel) == pixel
        }
    }
}

// One line further back.
#[tactic(auto, unfolding(crate::specs::Survey::scan_back))]
fn scan_back(s: Scan, index: usize, line: Line, sought: Sought) -> Scan
    requires { (s.skip + 1 < 2 ^ 64) × (s.count + 1 < 2 ^ 64) }
    ensures { result ≡ scan_back s index line sought }
{
    if line.kind == Kind::Withdrawal {
        return Scan {
            skip: s.skip + 1,
            ..s
        };
    }
    if 0 < s.skip {
        return Scan {
            skip: s.skip - 1,
            ..s
        };
    }
    Scan {
        skip: 0,
        count: s.count + 1,
        last: s.last.or(Some(index)),
        sought: if is_sought(sought, line) {
            s.sought.or(Some(index))
        } else {
            s.sought
        },
    }
}

#[tactic(auto, unfolding(crate::specs::Survey::found_at))]
fn found_at(ledger: &[u8], noted: Option<usize>) -> Option<Found>
    ensures { result ≡ found_at ledger.now noted }
{
    let index = noted?;
    let line = line_at(ledger, index)?;
    Some(Found { index, line })
}

// What stands of the first `lines` lines, and the last that is looked for, in one pass from the last to the first.
pub fn survey_for(ledger: &[u8], lines: u64, sought: Sought) -> Option<Summary>
    ensures { result ≡ survey_for sought ledger.now lines }
{
    let (held, _) = ledger.as_chunks::<16>();
    let held = held.get(..lines as usize)?;
    let mut s = Scan {
        skip: 0,
        count: 0,
        last: None,
        sought: None,
    };
    for i in (0..held.len()).rev() {
        let line = line_of_number(u128::from_be_bytes(held[i]))?;
        s = scan_back(s, i, line, sought);
    }
    if 0 < s.skip {
        return None;
    }
    Some(Summary {
        last: found_at(ledger, s.last),
        sought: found_at(ledger, s.sought),
        count: s.count,
    })
}

// What stands of the first `lines` lines, and the last keep line.
pub fn survey(ledger: &[u8], lines: u64) -> Option<Summary>
    ensures { result ≡ survey_of ledger.now lines }
{
    survey_for(ledger, lines, Sought::Keep)
}

// Writes one line more.
#[tactic(auto, unfolding(crate::specs::Ledger::append_answer, crate::specs::Ledger::append_bytes))]
pub fn append(ledger: &mut [u8], lines: u64, line: Line) -> Result<u64, Refusal>
    ensures value { result ≡ append_answer ledger.old lines }
    ensures ledger_after { ledger.new ≡ append_bytes ledger.old lines line }
{
    if (ledger.len() / 16) as u64 <= lines {
        return Err(Refusal::LedgerFull);
    }
    put_line(ledger, lines as usize, line);
    Ok(lines + 1)
}

// The keep entry.
pub fn keep(ledger: &mut [u8], lines: u64, date: Date) -> Result<u64, Refusal>
    ensures value { result ≡ keep_answer ledger.old lines date }
    ensures ledger_after { ledger.new ≡ keep_bytes ledger.old lines date }
{
    survey(ledger, lines).ok_or(Refusal::LedgerMalformed)?;
    if !calendar::is_date(date) {
        return Err(Refusal::NotADate);
    }
    let line = Line {
        kind: Kind::Keep,
        date,
        pixel: 0,
        old: 0,
        new: 0,
    };
    append(ledger, lines, line)
}

#[tactic(auto, unfolding(crate::specs::Ledger::purge_by))]
fn purge_by(day: Date, last: Option<Found>) -> Result<(), Refusal>
    ensures { result ≡ purge_by day last }
{
    let last = last.ok_or(Refusal::NoKeepLine)?;
    if calendar::is_before(last.line.date, day) {
        return Ok(());
    }
    Err(Refusal::NotYet)
}

// The purge question.
pub fn may_purge(ledger: &[u8], lines: u64, day: Date) -> Result<(), Refusal>
    ensures { result ≡ purge_answer ledger.now lines day }
{
    let summary = survey(ledger, lines).ok_or(Refusal::LedgerMalformed)?;
    if !calendar::is_date(day) {
        return Err(Refusal::NotADate);
    }
    purge_by(day, summary.sought)
}
