// Writing from standard input, one case to a row: how many bytes of header are given, the data of the nine lines of the header's
// table, the form as its two widths, the output's room and the pixels, with | between them. A line's data that starts with !
// stands under a wrong name; 5x60 is sixty pixels of 5. Each header is made, the proved writer called on an output of AAs, and
// printed behind the row: the refusal, and whether the output is untouched; or the frame's length, the data of its two lines,
// the bytes behind its header, whether the rest is right, and what comes of reading it and writing it again. A row that starts
// with # is a heading.
#![tactic(auto)]

ghost use Rattle.std.specs.Prelude.{◌≡◌, ◌+◌, ◌≤◌, ◌<◌, length};

use console::Output;
use header_lines::LineId;
use layout::{Form, Frame, Image, Underflow, Width};
use refusal::Refusal;
use std::io;
use std::io::Write;

// The first place from `at` on that has the byte, or the text's end.
fn find(text: &[u8], at: usize, byte: u8) -> usize
    requires { at ≤ length text.now }
    ensures { (at ≤ result) × (result ≤ length text.now) }
{
    let mut i = at;
    while i < text.len() {
        if text[i] == byte {
            return i;
        }
        i += 1;
    }
    i
}

fn least(a: usize, b: usize) -> usize
    ensures { (result ≤ a) × (result ≤ b) }
{
    if a < b { a } else { b }
}

// Where the next cell starts, or the row's end.
fn next_cell(row: &[u8], at: usize) -> usize
    requires { at ≤ length row.now }
    ensures { result ≤ length row.now }
{
    let bar = find(row, at, b'|');
    if bar < row.len() { bar + 1 } else { bar }
}

// The cell of a row at place k, from 0.
fn cell(row: &[u8], k: usize) -> &[u8] {
    let mut at = 0;
    let mut i = 0;
    while i < k {
        at = next_cell(row, at);
        i += 1;
    }
    let end = find(row, at, b'|');
    &row[at..end]
}

// A number, 0 where there is none.
fn value(text: &[u8]) -> u32 {
    match numeral::number_of(text) {
        Some(n) => n,
        None => 0,
    }
}

fn store(buffer: &mut [u8], at: usize, byte: u8) {
    if at < buffer.len() {
        buffer[at] = byte;
    }
}

// Copies the text into the buffer from a place on, as far as the buffer goes.
fn put(buffer: &mut [u8], from: usize, text: &[u8])
    requires { from ≤ 65536 }
{
    let mut i = 0;
    while i < text.len() {
        store(buffer, from + i, text[i]);
        i += 1;
    }
}

fn line_id(k: usize) -> LineId {
    match k {
        0 => LineId::Format,
        1 => LineId::Version,
        2 => LineId::Hdrblks,
        3 => LineId::Noverfl,
        4 => LineId::Npixelb,
        5 => LineId::Nrows,
        6 => LineId::Ncols,
        7 => LineId::Linear,
        _ => LineId::Nexp,
    }
}

// The line of the table's place k, with its data.
fn put_line(buffer: &mut [u8], k: usize, text: &[u8]) {
    let l = header_lines::line_of(line_id(k));
    let name = l.name;
    let from = l.position as usize * 80;
    put(buffer, from, &name);
    if text.len() == 0 {
        return;
    }
    if text[0] == b'!' {
        put(buffer, from + 7, text);
    } else {
        put(buffer, from + 8, text);
    }
}

// The nine lines, from the cells behind the first.
fn put_lines(buffer: &mut [u8], row: &[u8]) {
    let mut k = 0;
    while k < 9 {
        put_line(buffer, k, cell(row, k + 1));
        k += 1;
    }
}

// One pixel more, where there is a place for it.
fn put_pixel(pixels: &mut [u32], at: usize, v: u32) -> usize
    requires { at ≤ length pixels.old }
    ensures { result ≤ length pixels.old }
{
    if at < pixels.len() {
        pixels[at] = v;
        return at + 1;
    }
    at
}

fn put_times(pixels: &mut [u32], at: usize, v: u32, k: u32) -> usize
    requires { at ≤ length pixels.old }
    ensures { result ≤ length pixels.old }
{
    let mut n = at;
    let mut i = 0;
    while i < k {
        n = put_pixel(pixels, n, v);
        i += 1;
    }
    n
}

// A number, or a number so many times.
fn put_token(pixels: &mut [u32], at: usize, token: &[u8]) -> usize
    requires { at ≤ length pixels.old }
    ensures { result ≤ length pixels.old }
{
    let x = find(token, 0, b'x');
    let v = value(&token[0..x]);
    if x < token.len() {
        return put_times(pixels, at, v, value(&token[x + 1..]));
    }
    put_pixel(pixels, at, v)
}

// The pixels of a cell. The answer: how many.
fn put_pixels(pixels: &mut [u32], text: &[u8]) -> usize
    ensures { result ≤ length pixels.old }
{
    let mut n = 0;
    let mut at = 0;
    while at < text.len() {
        let end = find(text, at, b' ');
        n = put_token(pixels, n, &text[at..end]);
        at = end + 1;
    }
    n
}

// The form of a pixel width and an underflow width, where 0 asks for kind none.
fn as_form(width: Width, underflow: u32) -> Option<Form> {
    if underflow == 0 {
        return Some(Form {
            width,
            underflow: Underflow::None,
        });
    }
    match layout::entry_from(underflow) {
        Some(e) => Some(Form {
            width,
            underflow: Underflow::Subtracted(e),
        }),
        None => None,
    }
}

fn asked_form(text: &[u8]) -> Option<Form> {
    let space = find(text, 0, b' ');
    let behind = least(space + 1, text.len());
    match layout::width_from(value(&text[0..space])) {
        Some(w) => as_form(w, value(&text[behind..])),
        None => None,
    }
}

fn word(stdout: &mut Output, text: &[u8]) -> io::Result<()> {
    stdout.write_all(text)
}

fn number(stdout: &mut Output, text: &[u8], n: u64) -> io::Result<()> {
    stdout.write_all(text)?;
    console::print_decimal(stdout, n)
}

// One of two words.
fn judge(stdout: &mut Output, text: &[u8], good: bool) -> io::Result<()> {
    word(stdout, text)?;
    if good {
        word(stdout, b" ok")
    } else {
        word(stdout, b" WRONG")
    }
}

// Every byte is the one given.
fn all_are(bytes: &[u8], byte: u8) -> bool {
    let mut i = 0;
    while i < bytes.len() {
        if bytes[i] != byte {
            return false;
        }
        i += 1;
    }
    true
}

// The same bytes from one place to another in both, as far as both go.
fn same_between(a: &[u8], b: &[u8], from: usize, to: usize) -> bool {
    let end = least(to, least(a.len(), b.len()));
    let mut i = from;
    while i < end {
        if a[i] != b[i] {
            return false;
        }
        i += 1;
    }
    true
}

fn same_pixels(a: &[u32], b: &[u32]) -> bool {
    let end = least(a.len(), b.len());
    let mut i = 0;
    while i < end {
        if a[i] != b[i] {
            return false;
        }
        i += 1;
    }
    true
}

// The header is copied but for the data of lines 20 and 39.
fn kept(given: &[u8], out: &[u8], start: usize) -> bool {
    if same_between(given, out, 0, 1608) {
        if same_between(given, out, 1680, 3128) {
            return same_between(given, out, 3200, start);
        }
    }
    false
}

fn show_part(stdout: &mut Output, out: &[u8], from: usize, to: usize) -> io::Result<()> {
    let end = least(to, out.len());
    let start = least(from, end);
    word(stdout, b"[")?;
    word(stdout, &out[start..end])?;
    word(stdout, b"]")
}

fn show_byte(stdout: &mut Output, byte: u8) -> io::Result<()> {
    console::print_hex(stdout, byte)
}

fn show_bytes(stdout: &mut Output, bytes: &[u8]) -> io::Result<()> {
    let mut i = 0;
    while i < bytes.len() {
        show_byte(stdout, bytes[i])?;
        i += 1;
    }
    Ok(())
}

// The frame is read to its end and gives the image's pixels, and they are written as the same frame.
fn reads_back(out: &[u8], end: usize, image: Image, pixels: &[u32], asked: Option<Form>) -> bool
    requires { end ≤ length out.now }
{
    let mut back = [9u32; 640];
    let Ok(
        Frame {
            rows,
            columns,
            end: last,
        },
    ) = reader::read(out, &mut back)
    else {
        return false;
    };
    let n = least(layout::pixel_count(image), least(640, pixels.len()));
    if rows != image.rows || columns != image.columns || last != end as u64 {
        return false;
    }
    if !same_pixels(&back[0..n], &pixels[0..n]) {
        return false;
    }
    let mut again = [170u8; 16384];
    writes_again(out, end, &back[0..n], asked, &mut again)
}

// The frame's own header and the pixels read give the same output again.
fn writes_again(
    out: &[u8],
    end: usize,
    pixels: &[u32],
    asked: Option<Form>,
    again: &mut [u8],
) -> bool
    requires { end ≤ length out.now }
{
    let n = least(out.len(), again.len());
    let answer = writer::write(&out[0..end], pixels, asked, &mut again[0..n]);
    let Ok(length) = answer else {
        return false;
    };
    if length != end as u64 {
        return false;
    }
    same_between(out, again, 0, n)
}

fn show_frame(
    stdout: &mut Output,
    given: &[u8],
    image: Image,
    pixels: &[u32],
    asked: Option<Form>,
    out: &[u8],
    length: usize,
) -> io::Result<()> {
    let end = least(length, out.len());
    let start = least(image.start as usize, end);
    number(stdout, b" -> length ", length as u64)?;
    word(stdout, b" NOVERFL")?;
    show_part(stdout, out, 1608, 1680)?;
    word(stdout, b" NPIXELB")?;
    show_part(stdout, out, 3128, 3200)?;
    word(stdout, b" ")?;
    show_bytes(stdout, &out[start..end])?;
    judge(stdout, b" header", kept(given, out, start))?;
    judge(stdout, b" tail", all_are(&out[end..], 0))?;
    judge(stdout, b" back", reads_back(out, end, image, pixels, asked))
}

fn write_row(
    stdout: &mut Output,
    given: &[u8],
    pixels: &[u32],
    asked: Option<Form>,
    out: &mut [u8],
) -> io::Result<()> {
    let answer = writer::write(given, pixels, asked, out);
    let Ok(length) = answer else {
        show_refusal(stdout, answer)?;
        judge(stdout, b" output", all_are(out, 170))?;
        return Ok(());
    };
    if let Ok(h) = header::read_header(given) {
        let image = h.image;
        show_frame(stdout, given, image, pixels, asked, out, length as usize)?;
    }
    Ok(())
}

fn show_refusal(stdout: &mut Output, answer: Result<u64, Refusal>) -> io::Result<()> {
    if let Err(r) = answer {
        number(stdout, b" -> refused ", refusal::number_of(r) as u64)?;
    }
    Ok(())
}

fn run(stdout: &mut Output, row: &[u8]) -> io::Result<()> {
    word(stdout, row)?;
    let mut header = [b' '; 8192];
    put_lines(&mut header, row);
    let given = least(value(cell(row, 0)) as usize, 8192);
    let mut pixels = [0u32; 640];
    let n = put_pixels(&mut pixels, cell(row, 12));
    let room = least(value(cell(row, 11)) as usize, 16384);
    let mut out = [170u8; 16384];
    write_row(
        stdout,
        &header[0..given],
        &pixels[0..n],
        asked_form(cell(row, 10)),
        &mut out[0..room],
    )?;
    word(stdout, b"\n")
}

fn run_rows(stdout: &mut Output, text: &[u8]) -> io::Result<()> {
    let mut at = 0;
    while at < text.len() {
        let end = find(text, at, b'\n');
        let row = &text[at..end];
        if text[at] == b'#' {
            word(stdout, row)?;
            word(stdout, b"\n")?;
        } else {
            run(stdout, row)?;
        }
        at = end + 1;
    }
    Ok(())
}

fn main(rt: HostRuntime) -> io::Result<()> {
    let mut stdout = console::output(&rt)?;
    let mut text = [0u8; 65536];
    let n = console::read_full(&mut rt.stdin(), &mut text)?;
    run_rows(&mut stdout, &text[..n])?;
    stdout.flush()
}
