// Frames from standard input, one to a row: how many places the pixel array has, then FORMAT, NOVERFL, NPIXELB, NROWS, NCOLS and
// NEXP, and the bytes behind the header, with | between them. The bytes are numbers; z12 is twelve zeros, and characters stand
// between quotes. Each frame is made, read by the proved function into an array of nines, and the answer printed with the array.
// A row that starts with # is a heading.
#![tactic(auto)]

ghost use Rattle.std.specs.Prelude.{◌≡◌, ◌+◌, ◌≤◌, ◌<◌, length};

use console::Output;
use layout::Frame;
use refusal::Refusal;
use std::io;
use std::io::Write;

// The first place from `at` on that has the byte, or the text's end.
fn find(text: &[u8], at: usize, byte: u8) -> usize
    requires { at ≤ length text.now }
    ensures { (at ≤ result) × (result ≤ length text.now) }
{
    let mut i = at;
    while i < text.len() {
        if text[i] == byte {
            return i;
        }
        i += 1;
    }
    i
}

fn store(buffer: &mut [u8], at: usize, byte: u8) {
    if at < buffer.len() {
        buffer[at] = byte;
    }
}

// Copies the text into the buffer from a place on, as far as the buffer goes.
fn put(buffer: &mut [u8], from: usize, text: &[u8])
    requires { from ≤ 65536 }
{
    let mut i = 0;
    while i < text.len() {
        store(buffer, from + i, text[i]);
        i += 1;
    }
}

fn word(stdout: &mut Output, text: &[u8]) -> io::Result<()> {
    stdout.write_all(text)
}

fn number(stdout: &mut Output, text: &[u8], n: u64) -> io::Result<()> {
    stdout.write_all(text)?;
    console::print_decimal(stdout, n)
}

// A number of a row, at most 10000; 0 where there is none.
fn value(text: &[u8]) -> usize
    ensures { result ≤ 10000 }
{
    let Some(n) = numeral::number_of(text) else {
        return 0;
    };
    if n <= 10000 { n as usize } else { 10000 }
}

// Where the line of a cell starts.
fn line_start(k: usize) -> usize
    ensures { result ≤ 6400 }
{
    match k {
        1 => 0,
        2 => 1600,
        3 => 3120,
        4 => 3200,
        5 => 3280,
        _ => 6320,
    }
}

// Some bytes written and some characters of the row read.
#[derive(Clone, Copy)]
struct Step {
    pub at: usize,
    pub next: usize,
}

// A place further on, as far as 16384.
fn onward(at: usize, n: usize) -> usize
    requires { (at ≤ 16384) × (n ≤ 16384) }
    ensures { result ≤ 16384 }
{
    if at + n <= 16384 { at + n } else { 16384 }
}

// The characters of a row are few.
fn few(n: usize) -> usize
    ensures { result ≤ 16384 }
{
    if n <= 16384 { n } else { 16384 }
}

// Characters between quotes.
fn put_quoted(buffer: &mut [u8], cell: &[u8], s: Step) -> Step
    requires { (s.at ≤ 16384) × (s.next < length cell.now) }
    ensures { (result.at ≤ 16384) × (s.next < result.next) × (result.next ≤ length cell.now + 1) }
{
    let from = s.next + 1;
    let end = find(cell, from, b'"');
    put(buffer, s.at, &cell[from..end]);
    Step {
        at: onward(s.at, few(end - from)),
        next: end + 1,
    }
}

// A number, or so many zeros, which stand there already.
fn put_number(buffer: &mut [u8], cell: &[u8], s: Step) -> Step
    requires { (s.at ≤ 16384) × (s.next < length cell.now) }
    ensures { (result.at ≤ 16384) × (s.next < result.next) × (result.next ≤ length cell.now + 1) }
{
    let from = s.next;
    let end = find(cell, from + 1, b' ');
    if cell[from] == b'z' {
        let zeros = value(&cell[from + 1..end]);
        return Step {
            at: onward(s.at, zeros),
            next: end + 1,
        };
    }
    store(buffer, s.at, (value(&cell[from..end]) % 256) as u8);
    Step {
        at: onward(s.at, 1),
        next: end + 1,
    }
}

fn put_token(buffer: &mut [u8], cell: &[u8], s: Step) -> Step
    requires { (s.at ≤ 16384) × (s.next < length cell.now) }
    ensures { (result.at ≤ 16384) × (s.next < result.next) × (result.next ≤ length cell.now + 1) }
{
    let next = s.next;
    if cell[next] == b'"' {
        return put_quoted(buffer, cell, s);
    }
    put_number(buffer, cell, s)
}

// The bytes behind the header; the answer is the frame's length.
fn put_body(buffer: &mut [u8], cell: &[u8]) -> usize
    ensures { result ≤ 16384 }
{
    let mut s = Step { at: 7680, next: 0 };
    while s.next < cell.len() {
        s = put_token(buffer, cell, s);
    }
    s.at
}

// The lines that every header has, and the names of the others.
fn put_plain(buffer: &mut [u8]) {
    put(buffer, 0, &[b' '; 7680]);
    put(buffer, 0, b"FORMAT :");
    put(buffer, 80, b"VERSION:8");
    put(buffer, 160, b"HDRBLKS:15");
    put(buffer, 1600, b"NOVERFL:");
    put(buffer, 3120, b"NPIXELB:");
    put(buffer, 3200, b"NROWS  :");
    put(buffer, 3280, b"NCOLS  :");
    put(buffer, 4640, b"LINEAR :1 0");
    put(buffer, 6320, b"NEXP   :1 0 ");
}

fn put_line(buffer: &mut [u8], k: usize, cell: &[u8]) {
    let from = line_start(k);
    if k == 6 {
        put(buffer, from + 12, cell);
    } else {
        put(buffer, from + 8, cell);
    }
}

// The cells 1 to 6 of a row; the answer is where the seventh starts.
fn put_lines(buffer: &mut [u8], row: &[u8]) -> usize
    ensures { result ≤ length row.now }
{
    let mut at = find(row, 0, b'|');
    let mut k = 1;
    while k < 7 {
        if row.len() <= at {
            return row.len();
        }
        let end = find(row, at + 1, b'|');
        put_line(buffer, k, &row[at + 1..end]);
        at = end;
        k += 1;
    }
    at
}

fn show_pixel(stdout: &mut Output, v: u32) -> io::Result<()> {
    number(stdout, b" ", v as u64)
}

fn show_pixels(stdout: &mut Output, pixels: &[u32]) -> io::Result<()> {
    let mut i = 0;
    while i < pixels.len() {
        show_pixel(stdout, pixels[i])?;
        i += 1;
    }
    Ok(())
}

fn show(stdout: &mut Output, answer: Result<Frame, Refusal>) -> io::Result<()> {
    match answer {
        Ok(Frame { rows, columns, end }) => {
            number(stdout, b" -> frame ", rows as u64)?;
            number(stdout, b" x ", columns as u64)?;
            number(stdout, b" end ", end)
        }
        Err(r) => {
            number(stdout, b" -> refused ", refusal::number_of(r) as u64)?;
            number(stdout, b" place ", refusal::place_of(r) as u64)
        }
    }
}

fn read_into(stdout: &mut Output, frame: &[u8], pixels: &mut [u32]) -> io::Result<()> {
    show(stdout, reader::read(frame, pixels))?;
    word(stdout, b" [")?;
    show_pixels(stdout, pixels)?;
    word(stdout, b" ]\n")
}

// The array has as many places as the row says, at most 640.
fn places(n: usize) -> usize
    ensures { result ≤ 640 }
{
    if n <= 640 { n } else { 640 }
}

// The bytes of the seventh cell, if there is one.
fn put_rest(buffer: &mut [u8], row: &[u8], at: usize) -> usize
    requires { at ≤ length row.now }
    ensures { result ≤ 16384 }
{
    if at < row.len() {
        return put_body(buffer, &row[at + 1..]);
    }
    7680
}

fn run(stdout: &mut Output, row: &[u8]) -> io::Result<()> {
    word(stdout, row)?;
    let mut buffer = [0u8; 16384];
    put_plain(&mut buffer);
    let body = put_lines(&mut buffer, row);
    let length = put_rest(&mut buffer, row, body);
    let mut pixels = [9u32; 640];
    let first = find(row, 0, b'|');
    let n = places(value(&row[..first]));
    read_into(stdout, &buffer[..length], &mut pixels[..n])
}

fn run_rows(stdout: &mut Output, text: &[u8]) -> io::Result<()> {
    let mut at = 0;
    while at < text.len() {
        let end = find(text, at, b'\n');
        let row = &text[at..end];
        if text[at] == b'#' {
            word(stdout, row)?;
            word(stdout, b"\n")?;
        } else {
            run(stdout, row)?;
        }
        at = end + 1;
    }
    Ok(())
}

fn main(rt: HostRuntime) -> io::Result<()> {
    let mut stdout = console::output(&rt)?;
    let mut text = [0u8; 65536];
    let n = console::read_full(&mut rt.stdin(), &mut text)?;
    run_rows(&mut stdout, &text[..n])?;
    stdout.flush()
}
