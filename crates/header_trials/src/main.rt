// Header cases from standard input, one to a row: how many bytes are given, then the data of the nine lines of the header's
// table, with | between them. A value that starts with ! stands under a wrong name. Each header is made, read by the proved
// function, and its answer printed behind the row. A row that starts with # is a heading.
#![tactic(auto)]

ghost use Rattle.std.specs.Prelude.{◌≤◌};

use console::Output;
use header_lines::LineId;
use layout::{Header, Tables, Underflows};
use std::io;
use std::io::Write;

// The lines of the header's table, in their order.
const LINES: [LineId; 9] = [
    LineId::Format,
    LineId::Version,
    LineId::Hdrblks,
    LineId::Noverfl,
    LineId::Npixelb,
    LineId::Nrows,
    LineId::Ncols,
    LineId::Linear,
    LineId::Nexp,
];

// Copies the bytes into the buffer from a place on, as far as the buffer goes.
fn put(buffer: &mut [u8], from: usize, bytes: &[u8]) {
    for (to, byte) in buffer.iter_mut().skip(from).zip(bytes) {
        *to = *byte;
    }
}

// A line of the header's table with its data. Data that start with ! put that over the colon behind the name.
fn put_line(buffer: &mut [u8], id: LineId, data: &[u8]) {
    let l = header_lines::line_of(id);
    let from = l.position as usize * 80;
    put(buffer, from, &l.name);
    let behind = if data.starts_with(b"!") { 7 } else { 8 };
    put(buffer, from + behind, data);
}

// The lines of the header's table, from the cells behind the first; a cell behind the ninth is the last line's again.
fn put_lines(buffer: &mut [u8], row: &[u8]) {
    for (k, cell) in row.split_inclusive(|b| *b == b'|').skip(1).enumerate() {
        let id = LINES.get(k).copied().unwrap_or(LineId::Nexp);
        put_line(buffer, id, cell.strip_suffix(b"|").unwrap_or(cell));
    }
}

fn show_underflows(stdout: &mut Output, u: Underflows) -> io::Result<()> {
    match u {
        Underflows::Unused => write!(stdout, " underflows -1"),
        Underflows::NoWidth { baseline } => {
            write!(stdout, " underflows 0 of width 0 baseline {baseline}")
        }
        Underflows::Counted {
            entry,
            count,
            baseline,
        } => {
            let width = layout::entry_bytes(entry);
            write!(
                stdout,
                " underflows {count} of width {width} baseline {baseline}"
            )
        }
    }
}

fn show_tables(stdout: &mut Output, tables: Tables) -> io::Result<()> {
    match tables {
        Tables::Format86 { entries } => writeln!(stdout, " entries {entries}"),
        Tables::Format100(t) => {
            show_underflows(stdout, t.underflows)?;
            writeln!(stdout, " two {} four {}", t.two, t.four)
        }
    }
}

fn show(stdout: &mut Output, h: Header) -> io::Result<()> {
    let image = h.image;
    write!(stdout, " -> accepted, length {}", image.start)?;
    write!(stdout, " rows {} columns {}", image.rows, image.columns)?;
    write!(stdout, " width {}", layout::width_bytes(image.width))?;
    show_tables(stdout, h.tables)
}

// How many bytes are given; a row without a number gives none.
fn given(row: &[u8]) -> usize
    ensures { result ≤ 32768 }
{
    let first = row.split(|b| *b == b'|').next().unwrap_or(row);
    (numeral::number_of(first).unwrap_or(0) as usize).min(32768)
}

fn run(stdout: &mut Output, row: &[u8]) -> io::Result<()> {
    stdout.write_all(row)?;
    let mut buffer = [b' '; 32768];
    put_lines(&mut buffer, row);
    match header::read_header(&buffer[..given(row)]) {
        Ok(h) => show(stdout, h),
        Err(r) => {
            let (number, place) = (refusal::number_of(r), refusal::place_of(r));
            writeln!(stdout, " -> refused {number} place {place}")
        }
    }
}

fn run_rows(stdout: &mut Output, text: &[u8]) -> io::Result<()> {
    for line in text.split_inclusive(|b| *b == b'\n') {
        let row = line.strip_suffix(b"\n").unwrap_or(line);
        if row.starts_with(b"#") {
            stdout.write_all(row)?;
            stdout.write_all(b"\n")?;
        } else {
            run(stdout, row)?;
        }
    }
    Ok(())
}

fn main(rt: HostRuntime) -> io::Result<()> {
    let mut stdout = console::output(&rt)?;
    let mut text = [0u8; 65536];
    let n = console::read_full(&mut rt.stdin(), &mut text)?;
    run_rows(&mut stdout, &text[..n])?;
    stdout.flush()
}
