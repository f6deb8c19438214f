// What a header says, as plain numbers.
#![tactic(auto)]

ghost use Rattle.std.specs.Prelude.{◌≡◌};
ghost use Rattle.header.specs.Header.{header_of};
ghost use Rattle.header_report.specs.Report.{underflow_report, report86, report100, report_refused, report_tables, header_report};

use layout::{BinaryTables, Image, Tables, Underflows};
use refusal::{Code, Refusal};

// refusal is 0 where the header is accepted; a field that does not apply is 0.
#[repr(C)]
#[derive(Clone, Copy, Default)]
pub struct HeaderReport {
    pub refusal: u32,
    pub place: u32,
    pub column: u32,
    pub format: u32,
    pub start: u32,
    pub rows: u32,
    pub columns: u32,
    pub width: u32,
    pub entries: u32,
    pub subtracted: u32,
    pub entry: u32,
    pub baseline: u32,
    pub underflows: u32,
    pub two: u32,
    pub four: u32,
}

#[derive(Clone, Copy, Default)]
pub struct UnderflowReport {
    pub subtracted: u32,
    pub entry: u32,
    pub baseline: u32,
    pub count: u32,
}

fn underflow_report(u: Underflows) -> UnderflowReport
    ensures { result ≡ underflow_report u }
{
    match u {
        Underflows::Unused => UnderflowReport::default(),
        Underflows::NoWidth { baseline } => UnderflowReport {
            subtracted: 1,
            baseline,
            ..UnderflowReport::default()
        },
        Underflows::Counted {
            entry,
            count,
            baseline,
        } => UnderflowReport {
            subtracted: 1,
            entry: layout::entry_bytes(entry) as u32,
            baseline,
            count,
        },
    }
}

fn report_86(i: Image, entries: u32) -> HeaderReport
    ensures { result ≡ report86 i entries }
{
    HeaderReport {
        format: 86,
        start: i.start,
        rows: i.rows,
        columns: i.columns,
        width: layout::width_bytes(i.width) as u32,
        entries,
        ..HeaderReport::default()
    }
}

fn report_100(i: Image, t: BinaryTables) -> HeaderReport
    ensures { result ≡ report100 i t }
{
    let u = underflow_report(t.underflows);
    HeaderReport {
        format: 100,
        start: i.start,
        rows: i.rows,
        columns: i.columns,
        width: layout::width_bytes(i.width) as u32,
        subtracted: u.subtracted,
        entry: u.entry,
        baseline: u.baseline,
        underflows: u.count,
        two: t.two,
        four: t.four,
        ..HeaderReport::default()
    }
}

fn report_refused(r: Refusal) -> HeaderReport
    ensures { result ≡ report_refused r }
{
    let Code { number, place } = Code::from(r);
    HeaderReport {
        refusal: number,
        place,
        ..HeaderReport::default()
    }
}

fn report_tables(i: Image, t: Tables) -> HeaderReport
    ensures { result ≡ report_tables i t }
{
    match t {
        Tables::Format86 { entries } => report_86(i, entries),
        Tables::Format100(tables) => report_100(i, tables),
    }
}

// What the header at the front of the bytes says.
pub fn report(bytes: &[u8]) -> HeaderReport
    ensures { result ≡ header_report (header_of bytes.now) }
{
    match header::read_header(bytes) {
        Ok(h) => report_tables(h.image, h.tables),
        Err(r) => report_refused(r),
    }
}
