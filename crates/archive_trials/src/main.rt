// Lists of calls on a held frame and its ledger, from standard input, one list to a row with | between: the pixel width, the
// underflow width, the baseline, rows, columns, bytes of room behind the frame, lines that the ledger holds, a seed, the number of
// calls and the pixels (made from the seed where there are none). Each row's frame is written and opened, the calls are made, and
// after each one the answer, the number of lines, the held bytes and the ledger's bytes are compared with those of the plain model.
// A row may go on: pixel 0 is corrected to 7, then h or l (held or ledger), a place and the text put there, the refusal that a
// withdrawal must give, a pixel and the refusal that its correction must give. A row that starts with # is a heading.
#![tactic(auto)]

ghost use Rattle.std.specs.Prelude.{◌≤◌, length};

use calendar::Date;
use console::Output;
use layout::{Form, Image, Underflow, Width};
use opening::Opened;
use refusal::Refusal;
use std::io;
use std::io::Write;

// A call: 0 correction, 1 keep entry, 2 withdrawal, 3 purge question. One beyond is of a pixel 4294967296 higher.
#[derive(Clone, Copy)]
struct Call {
    pub kind: u32,
    pub pixel: u32,
    pub beyond: bool,
    pub count: u32,
    pub date: Date,
}

// The model's lines and the entries on its stack.
#[derive(Clone, Copy)]
struct Model {
    pub lines: usize,
    pub top: usize,
}

// What a call answers, 0 for yes, and the model behind it.
#[derive(Clone, Copy)]
struct Expected {
    pub number: u32,
    pub model: Model,
}

// What a call answered, and the lines that it gave back.
#[derive(Clone, Copy)]
struct Given {
    pub number: u32,
    pub lines: u64,
}

// What a row says of its calls.
#[derive(Clone, Copy)]
struct Setting {
    pub asked: Option<Form>,
    pub baseline: u32,
    pub seed: u64,
    pub calls: usize,
}

// How far a list went: the calls made, and whether all agreed.
#[derive(Clone, Copy)]
struct Played {
    pub model: Model,
    pub calls: usize,
    pub good: bool,
}

// The first place from `at` on that has the byte, or the text's end.
fn find(text: &[u8], at: usize, byte: u8) -> usize
    requires { at ≤ length text.now }
    ensures { (at ≤ result) × (result ≤ length text.now) }
{
    let mut i = at;
    while i < text.len() {
        if text[i] == byte {
            return i;
        }
        i += 1;
    }
    i
}

fn least(a: usize, b: usize) -> usize
    ensures { (result ≤ a) × (result ≤ b) }
{
    if a < b { a } else { b }
}

// Where the next cell starts, or the row's end.
fn next_cell(row: &[u8], at: usize) -> usize
    requires { at ≤ length row.now }
    ensures { result ≤ length row.now }
{
    let bar = find(row, at, b'|');
    if bar < row.len() { bar + 1 } else { bar }
}

// The cell of a row at place k, from 0.
fn cell(row: &[u8], k: usize) -> &[u8] {
    let mut at = 0;
    let mut i = 0;
    while i < k {
        at = next_cell(row, at);
        i += 1;
    }
    let end = find(row, at, b'|');
    &row[at..end]
}

// The number of a cell, 0 where there is none.
fn value(text: &[u8]) -> u32 {
    match numeral::number_of(text) {
        Some(n) => n,
        None => 0,
    }
}

fn word(stdout: &mut Output, text: &[u8]) -> io::Result<()> {
    stdout.write_all(text)
}

fn number(stdout: &mut Output, text: &[u8], n: u64) -> io::Result<()> {
    stdout.write_all(text)?;
    console::print_decimal(stdout, n)
}

fn store(buffer: &mut [u8], at: usize, byte: u8) {
    if at < buffer.len() {
        buffer[at] = byte;
    }
}

// Copies the text into the buffer from a place on, as far as the buffer goes.
fn put(buffer: &mut [u8], from: usize, text: &[u8]) {
    let start = least(from, 65536);
    let mut i = 0;
    while i < text.len() {
        store(buffer, start + i, text[i]);
        i += 1;
    }
}

// A header of FORMAT 100 with these rows, columns and baseline.
fn put_header(buffer: &mut [u8], rows: &[u8], columns: &[u8], baseline: &[u8]) {
    put(buffer, 0, b"FORMAT :100");
    put(buffer, 80, b"VERSION:11");
    put(buffer, 160, b"HDRBLKS:15");
    put(buffer, 1600, b"NOVERFL:0 0 0");
    put(buffer, 3120, b"NPIXELB:1 1");
    put(buffer, 4640, b"LINEAR :1 0");
    put_sizes(buffer, rows, columns, baseline);
}

fn put_sizes(buffer: &mut [u8], rows: &[u8], columns: &[u8], baseline: &[u8]) {
    put(buffer, 3200, b"NROWS  :");
    put(buffer, 3208, rows);
    put(buffer, 3280, b"NCOLS  :");
    put(buffer, 3288, columns);
    put(buffer, 6320, b"NEXP   :1 0 ");
    put(buffer, 6332, baseline);
}

// The form of a pixel width and an underflow width, where 0 asks for kind none.
fn as_form(width: Width, underflow: u32) -> Option<Form> {
    if underflow == 0 {
        return Some(Form {
            width,
            underflow: Underflow::None,
        });
    }
    match layout::entry_from(underflow) {
        Some(e) => Some(Form {
            width,
            underflow: Underflow::Subtracted(e),
        }),
        None => None,
    }
}

fn asked_form(width: u32, underflow: u32) -> Option<Form> {
    match layout::width_from(width) {
        Some(w) => as_form(w, underflow),
        None => None,
    }
}

// The next number of the generator, below 2147483648.
fn next(seed: u64) -> u64 {
    (seed % 2147483648 * 1103515245 + 12345) % 2147483648
}

// A number below `many`, which is 1 to 65536, from the upper bits of the generator's.
fn draw(seed: u64, many: u32) -> u32 {
    if many == 0 {
        return 0;
    }
    ((seed / 16384) % 131072) as u32 % many
}

fn one_less(b: u32) -> u32 {
    if 0 < b { b - 1 } else { 0 }
}

// A count by its place in a list of those near the thresholds.
fn near(baseline: u32, k: u32) -> u32 {
    let b = baseline % 65536;
    match k {
        0 => 0,
        1 => b,
        2 => b + 1,
        3 => b + 254,
        4 => b + 255,
        5 => b + 65534,
        6 => b + 65535,
        7 => b + 65536,
        8 => 4294967295,
        9 => 255,
        10 => one_less(b),
        _ => b / 2,
    }
}

// An opened count: one that underflows fits an entry of one byte.
fn first_count(baseline: u32, seed: u64) -> u32 {
    let v = near(baseline, draw(seed, 12));
    if v <= baseline { v % 256 } else { v }
}

fn make_pixels(pixels: &mut [u32], baseline: u32, seed: u64) {
    let mut s = seed;
    let mut i = 0;
    while i < pixels.len() {
        s = next(s);
        pixels[i] = first_count(baseline, s);
        i += 1;
    }
}

// Sets a number, where there is one.
fn set(pixels: &mut [u32], at: usize, v: u32) {
    if at < pixels.len() {
        pixels[at] = v;
    }
}

// A number, 0 where there is none.
fn at_place(pixels: &[u32], at: usize) -> u32 {
    if at < pixels.len() { pixels[at] } else { 0 }
}

// The pixels that a cell lists.
fn list_pixels(pixels: &mut [u32], text: &[u8]) {
    let mut n = 0;
    let mut at = 0;
    while at < text.len() {
        let end = find(text, at, b' ');
        set(pixels, n, value(&text[at..end]));
        n = up(n);
        at = end + 1;
    }
}

// One more, as far as 1000000.
fn up(n: usize) -> usize {
    if n < 1000000 { n + 1 } else { n }
}

fn date(year: u32, month: u32, day: u32) -> Date {
    Date { year, month, day }
}

// Dates from a list in which 5 to 8 are none.
fn some_date(k: u32) -> Date {
    match k {
        0 => date(2031, 11, 2),
        1 => date(2031, 11, 3),
        2 => date(2000, 2, 29),
        3 => date(1, 1, 1),
        4 => date(4095, 12, 31),
        5 => date(1900, 2, 29),
        6 => date(2031, 11, 31),
        7 => date(2031, 13, 1),
        8 => date(4096, 1, 1),
        9 => date(2031, 12, 1),
        _ => date(2032, 1, 1),
    }
}

// The model's calendar.
fn is_real(d: Date) -> bool {
    if d.year < 1 || 4095 < d.year || d.day < 1 {
        return false;
    }
    d.day <= month_days(d.year, d.month)
}

fn month_days(year: u32, month: u32) -> u32 {
    match month {
        1 | 3 | 5 | 7 | 8 | 10 | 12 => 31,
        4 | 6 | 9 | 11 => 30,
        2 => february(year),
        _ => 0,
    }
}

fn february(year: u32) -> u32 {
    if year % 400 == 0 {
        return 29;
    }
    if year % 4 == 0 && year % 100 != 0 {
        return 29;
    }
    28
}

// A date as one number, later dates greater.
fn date_code(d: Date) -> u32 {
    d.year % 4096 * 512 + d.month % 16 * 32 + d.day % 32
}

// Of sixteen: eight corrections, two keep entries, four withdrawals, two purge questions.
fn kind_from(k: u32) -> u32 {
    match k {
        0 | 1 => 1,
        2 | 3 | 4 | 5 => 2,
        6 | 7 => 3,
        _ => 0,
    }
}

// The pixel of a call: of sixteen, one is the first that is none.
fn pixel_from(seed: u64, n: u32) -> u32 {
    if draw(seed, 16) == 0 {
        n
    } else {
        draw(next(seed), n)
    }
}

fn make_call(seed: u64, n: u32, baseline: u32) -> Call {
    let b = next(seed);
    let c = next(b);
    let d = next(c);
    Call {
        kind: kind_from(draw(seed, 16)),
        pixel: pixel_from(b, n),
        beyond: draw(c, 16) == 0,
        count: near(baseline, draw(d, 12)),
        date: some_date(draw(d, 11)),
    }
}

// The pixel number of a call, which may be above 32 bits.
fn full_pixel(c: Call) -> u64 {
    if c.beyond {
        c.pixel as u64 + 4294967296
    } else {
        c.pixel as u64
    }
}

fn ledger_given(answer: Result<u64, Refusal>, before: u64) -> Given {
    match answer {
        Ok(lines) => Given { number: 0, lines },
        Err(r) => Given {
            number: refusal::number_of(r),
            lines: before,
        },
    }
}

fn purge_given(answer: Result<(), Refusal>, before: u64) -> Given {
    match answer {
        Ok(()) => Given {
            number: 0,
            lines: before,
        },
        Err(r) => Given {
            number: refusal::number_of(r),
            lines: before,
        },
    }
}

// The proved call.
fn make(c: Call, held: &mut [u8], ledger: &mut [u8], lines: u64) -> Given {
    let day = c.date;
    let kind = c.kind;
    match kind {
        0 => ledger_given(
            archive::correct(held, ledger, lines, full_pixel(c), c.count),
            lines,
        ),
        1 => ledger_given(ledger::keep(ledger, lines, day), lines),
        2 => ledger_given(archive::withdraw(held, ledger, lines), lines),
        _ => purge_given(ledger::may_purge(ledger, lines, day), lines),
    }
}

fn refused(number: u32, model: Model) -> Expected {
    Expected { number, model }
}

fn accepted(lines: usize, top: usize) -> Expected {
    Expected {
        number: 0,
        model: Model {
            lines: up(lines),
            top,
        },
    }
}

fn is_full(ledger: &[u8], model: Model) -> bool {
    ledger.len() / 16 <= model.lines
}

// A number in the eight bytes from a place on, most significant first.
fn put_word(ledger: &mut [u8], from: usize, v: u64) {
    let start = least(from, 65536);
    let mut x = v;
    let mut m = 8;
    while 0 < m {
        m -= 1;
        store(ledger, start + m, (x % 256) as u8);
        x = x / 256;
    }
}

// The model's line: its kind and date in the first number, and the pixel with both counts.
fn put_line(ledger: &mut [u8], lines: usize, head: u64, pixel: u32, old: u32, new: u32) {
    let at = least(lines, 4096) * 16;
    let middle = (pixel % 16777216) as u64 * 131072 + (old / 32768) as u64;
    put_word(ledger, at, head % 8388608 * 2199023255552 + middle);
    let low = (old % 32768) as u64 * 562949953421312 + new as u64 * 131072;
    put_word(ledger, at + 8, low);
}

// An entry goes on the stack, which lies behind the 28 numbers of answers: a pixel and its count, or 4294967295 and a date.
fn push(stack: &mut [u32], top: usize, place: u32, v: u32) {
    let at = stack_place(top);
    set(stack, at, place);
    set(stack, at + 1, v);
}

// Where an entry of the stack stands.
fn stack_place(k: usize) -> usize
    ensures { result ≤ 200028 }
{
    least(k, 100000) * 2 + 28
}

fn copy_pixels(to: &mut [u32], from: &[u32]) {
    let end = least(to.len(), from.len());
    let mut i = 0;
    while i < end {
        to[i] = from[i];
        i += 1;
    }
}

// Makes the stack's corrections, oldest first.
fn correct_all(pixels: &mut [u32], stack: &[u32], top: usize) {
    let end = least(top, 100000);
    let mut i = 0;
    while i < end {
        set(
            pixels,
            at_place(stack, stack_place(i)) as usize,
            at_place(stack, stack_place(i) + 1),
        );
        i += 1;
    }
}

fn write_number(answer: Result<u64, Refusal>) -> u32 {
    match answer {
        Ok(_) => 0,
        Err(r) => refusal::number_of(r),
    }
}

// The model's correction. The writer refuses before it writes, so the model's frame is then as it was.
fn expect_correction(
    c: Call,
    frame: &[u8],
    opened: &[u32],
    asked: Option<Form>,
    held: &mut [u8],
    ledger: &mut [u8],
    stack: &mut [u32],
    model: Model,
) -> Expected {
    if opened.len() as u64 <= full_pixel(c) {
        return refused(24, model);
    }
    if is_full(ledger, model) {
        return refused(21, model);
    }
    let mut pixels = [0u32; 24];
    copy_pixels(&mut pixels, opened);
    correct_all(&mut pixels, stack, model.top);
    let old = at_place(&pixels, c.pixel as usize);
    set(&mut pixels, c.pixel as usize, c.count);
    let n = least(opened.len(), 24);
    let number = write_number(writer::write(frame, &pixels[0..n], asked, held));
    if number != 0 {
        return refused(number, model);
    }
    put_line(ledger, model.lines, 0, c.pixel, old, c.count);
    push(stack, model.top, c.pixel, c.count);
    accepted(model.lines, up(model.top))
}

fn expect_keep(c: Call, ledger: &mut [u8], stack: &mut [u32], model: Model) -> Expected {
    let day = c.date;
    if !is_real(day) {
        return refused(25, model);
    }
    if is_full(ledger, model) {
        return refused(21, model);
    }
    let code = date_code(day);
    put_line(ledger, model.lines, 2097152 + code as u64, 0, 0, 0);
    push(stack, model.top, 4294967295, code);
    accepted(model.lines, up(model.top))
}

// The model's withdrawal; a frame that the writer refused here would be a difference.
fn expect_withdrawal(
    frame: &[u8],
    opened: &[u32],
    asked: Option<Form>,
    held: &mut [u8],
    ledger: &mut [u8],
    stack: &[u32],
    model: Model,
) -> Expected {
    if model.top == 0 {
        return refused(22, model);
    }
    if is_full(ledger, model) {
        return refused(21, model);
    }
    let top = model.top - 1;
    let mut pixels = [0u32; 24];
    copy_pixels(&mut pixels, opened);
    correct_all(&mut pixels, stack, top);
    let n = least(opened.len(), 24);
    let number = write_number(writer::write(frame, &pixels[0..n], asked, held));
    if number != 0 {
        return refused(number, model);
    }
    put_line(ledger, model.lines, 4194304, 0, 0, 0);
    accepted(model.lines, top)
}

// The uppermost keep date of the stack, 0 where there is none.
fn last_keep(stack: &[u32], top: usize) -> u32 {
    let mut i = least(top, 100000);
    while 0 < i {
        i -= 1;
        if at_place(stack, stack_place(i)) == 4294967295 {
            return at_place(stack, stack_place(i) + 1);
        }
    }
    0
}

fn purge_number(day: Date, stack: &[u32], top: usize) -> u32 {
    if !is_real(day) {
        return 25;
    }
    let last = last_keep(stack, top);
    if last == 0 {
        return 26;
    }
    if last < date_code(day) { 0 } else { 27 }
}

// The model's answer; its frame and ledger become what the call leaves.
fn expect(
    c: Call,
    frame: &[u8],
    opened: &[u32],
    asked: Option<Form>,
    held: &mut [u8],
    ledger: &mut [u8],
    stack: &mut [u32],
    model: Model,
) -> Expected {
    let day = c.date;
    let kind = c.kind;
    match kind {
        0 => expect_correction(c, frame, opened, asked, held, ledger, stack, model),
        1 => expect_keep(c, ledger, stack, model),
        2 => expect_withdrawal(frame, opened, asked, held, ledger, stack, model),
        _ => refused(purge_number(day, stack, model.top), model),
    }
}

fn same_bytes(a: &[u8], b: &[u8]) -> bool {
    let end = least(a.len(), b.len());
    let mut i = 0;
    while i < end {
        if a[i] != b[i] {
            return false;
        }
        i += 1;
    }
    a.len() == b.len()
}

fn both(a: bool, b: bool) -> bool {
    a && b
}

// Whether both sides hold the same frame and the same ledger.
fn are_same(held: &[u8], model_held: &[u8], ledger: &[u8], model_ledger: &[u8]) -> bool {
    let a = same_bytes(held, model_held);
    let b = same_bytes(ledger, model_ledger);
    both(a, b)
}

// Counts an answer.
fn note(tally: &mut [u32], number: u32) {
    let k = number as usize;
    let n = at_place(tally, k);
    set(tally, k, n % 1000000000 + 1);
}

fn agrees(e: Expected, g: Given) -> bool {
    let model = e.model;
    e.number == g.number && model.lines as u64 == g.lines
}

// One call more, where all agreed so far.
fn count_on(p: Played) -> usize {
    if p.good { up(p.calls) } else { p.calls }
}

// A call on both sides. The notes are how often each answer came, and the stack.
fn turn(
    c: Call,
    frame: &[u8],
    opened: &[u32],
    asked: Option<Form>,
    held: &mut [u8],
    ledger: &mut [u8],
    model_held: &mut [u8],
    model_ledger: &mut [u8],
    notes: &mut [u32],
    p: Played,
) -> Played {
    let model = p.model;
    let g = make(c, held, ledger, model.lines as u64);
    let e = expect(
        c,
        frame,
        opened,
        asked,
        model_held,
        model_ledger,
        notes,
        model,
    );
    note(notes, g.number);
    let after = e.model;
    let same = are_same(held, model_held, ledger, model_ledger);
    Played {
        model: after,
        calls: count_on(p),
        good: both(p.good, both(same, agrees(e, g))),
    }
}

// The generator's number for the next call.
fn later(seed: u64) -> u64 {
    next(next(next(next(next(seed)))))
}

fn made_call(seed: u64, opened: &[u32], baseline: u32) -> Call {
    make_call(seed, few(opened.len()), baseline)
}

// The calls of a row.
fn play(
    r: Setting,
    frame: &[u8],
    opened: &[u32],
    held: &mut [u8],
    ledger: &mut [u8],
    model_held: &mut [u8],
    model_ledger: &mut [u8],
    notes: &mut [u32],
) -> Played {
    let asked = r.asked;
    let baseline = r.baseline;
    let calls = least(r.calls, 100000);
    let mut p = start();
    let mut s = r.seed;
    let mut k = 0;
    while k < calls {
        s = later(s);
        p = turn(
            made_call(s, opened, baseline),
            frame,
            opened,
            asked,
            held,
            ledger,
            model_held,
            model_ledger,
            notes,
            p,
        );
        k += 1;
    }
    p
}

// A number of pixels, at most 24.
fn few(n: usize) -> u32 {
    if n <= 24 { n as u32 } else { 24 }
}

fn start() -> Played {
    Played {
        model: Model { lines: 0, top: 0 },
        calls: 0,
        good: true,
    }
}

// A correction of a pixel.
fn correction(pixel: u32, count: u32) -> Call {
    Call {
        kind: 0,
        pixel,
        beyond: false,
        count,
        date: date(0, 0, 0),
    }
}

fn withdrawal() -> Call {
    Call {
        kind: 2,
        pixel: 0,
        beyond: false,
        count: 0,
        date: date(0, 0, 0),
    }
}

// Puts the row's text into the held frame or the ledger.
fn damage(row: &[u8], held: &mut [u8], ledger: &mut [u8]) {
    let target = cell(row, 10);
    let place = value(cell(row, 11)) as usize;
    if target.len() == 0 {
        return;
    }
    if target[0] == b'h' {
        put(held, place, cell(row, 12));
    } else {
        put(ledger, place, cell(row, 12));
    }
}

// Whether a call on a damaged holding gives this refusal and the same lines.
fn is_refused(
    c: Call,
    held: &mut [u8],
    ledger: &mut [u8],
    lines: usize,
    number: u32,
    tally: &mut [u32],
) -> bool {
    let g = make(c, held, ledger, lines as u64);
    note(tally, g.number);
    g.number == number && g.lines == lines as u64
}

// Whether both calls on a damaged holding give the row's refusals.
fn are_refused(
    row: &[u8],
    held: &mut [u8],
    ledger: &mut [u8],
    lines: usize,
    tally: &mut [u32],
) -> bool {
    let c = correction(value(cell(row, 14)), 9);
    let first = value(cell(row, 13));
    let second = value(cell(row, 15));
    let a = is_refused(withdrawal(), held, ledger, lines, first, tally);
    let b = is_refused(c, held, ledger, lines, second, tally);
    both(a, b)
}

// Both calls on the damaged holding are refused, and nothing changes.
fn try_damaged(
    row: &[u8],
    held: &mut [u8],
    ledger: &mut [u8],
    model_held: &mut [u8],
    model_ledger: &mut [u8],
    tally: &mut [u32],
    p: Played,
) -> Played {
    let model = p.model;
    damage(row, held, ledger);
    damage(row, model_held, model_ledger);
    let right = are_refused(row, held, ledger, model.lines, tally);
    let same = are_same(held, model_held, ledger, model_ledger);
    Played {
        model,
        calls: up(up(p.calls)),
        good: both(p.good, both(right, same)),
    }
}

fn show_count(stdout: &mut Output, k: usize, n: u32) -> io::Result<()> {
    if 0 < n {
        number(stdout, b" ", k as u64)?;
        number(stdout, b":", n as u64)?;
    }
    Ok(())
}

fn show_accepted(stdout: &mut Output, n: u32) -> io::Result<()> {
    number(stdout, b" accepted ", n as u64)?;
    word(stdout, b" refused")
}

fn show_counts(stdout: &mut Output, tally: &[u32]) -> io::Result<()> {
    let mut k = 1;
    while k < 28 {
        show_count(stdout, k, at_place(tally, k))?;
        k += 1;
    }
    Ok(())
}

fn show_tally(stdout: &mut Output, tally: &[u32]) -> io::Result<()> {
    show_accepted(stdout, at_place(tally, 0))?;
    show_counts(stdout, tally)
}

fn show(stdout: &mut Output, p: Played, tally: &[u32]) -> io::Result<()> {
    number(stdout, b" -> calls ", p.calls as u64)?;
    show_tally(stdout, tally)?;
    if p.good {
        word(stdout, b" agrees\n")
    } else {
        number(stdout, b" DIFFERS at call ", p.calls as u64)?;
        word(stdout, b"\n")
    }
}

fn sum(a: u32, b: u32) -> u32 {
    a % 1000000000 + b % 1000000000
}

fn add_all(totals: &mut [u32], tally: &[u32]) {
    let end = least(totals.len(), tally.len());
    let mut k = 0;
    while k < end {
        totals[k] = sum(totals[k], tally[k]);
        k += 1;
    }
}

// The row's numbers for its calls.
fn calls_of(row: &[u8], asked: Option<Form>) -> Setting {
    Setting {
        asked,
        baseline: value(cell(row, 2)),
        seed: value(cell(row, 7)) as u64,
        calls: value(cell(row, 8)) as usize,
    }
}

// A correction and the calls on the damage, if the row has any.
fn finish(
    row: &[u8],
    frame: &[u8],
    opened: &[u32],
    asked: Option<Form>,
    held: &mut [u8],
    ledger: &mut [u8],
    model_held: &mut [u8],
    model_ledger: &mut [u8],
    notes: &mut [u32],
    p: Played,
) -> Played {
    if !has_damage(row) {
        return p;
    }
    let q = turn(
        correction(0, 7),
        frame,
        opened,
        asked,
        held,
        ledger,
        model_held,
        model_ledger,
        notes,
        p,
    );
    try_damaged(row, held, ledger, model_held, model_ledger, notes, q)
}

fn has_damage(row: &[u8]) -> bool {
    0 < cell(row, 10).len()
}

fn play_on(
    row: &[u8],
    frame: &[u8],
    opened: &[u32],
    asked: Option<Form>,
    held: &mut [u8],
    ledger: &mut [u8],
    model_held: &mut [u8],
    model_ledger: &mut [u8],
    notes: &mut [u32],
) -> Played {
    let p = play(
        calls_of(row, asked),
        frame,
        opened,
        held,
        ledger,
        model_held,
        model_ledger,
        notes,
    );
    finish(
        row,
        frame,
        opened,
        asked,
        held,
        ledger,
        model_held,
        model_ledger,
        notes,
        p,
    )
}

// The bytes of the row's ledger: its lines and seven more.
fn ledger_size(row: &[u8]) -> usize
    ensures { result ≤ 3216 }
{
    least(value(cell(row, 6)) as usize, 200) * 16 + 7
}

fn play_row(
    stdout: &mut Output,
    row: &[u8],
    frame: &[u8],
    opened: &[u32],
    asked: Option<Form>,
    held: &mut [u8],
    model_held: &mut [u8],
    totals: &mut [u32],
) -> io::Result<()> {
    let size = ledger_size(row);
    let mut ledger = [171u8; 3216];
    let mut model_ledger = [171u8; 3216];
    let mut notes = [0u32; 540];
    let p = play_on(
        row,
        frame,
        opened,
        asked,
        held,
        &mut ledger[0..size],
        model_held,
        &mut model_ledger[0..size],
        &mut notes,
    );
    show(stdout, p, &notes)?;
    add_all(totals, &notes);
    Ok(())
}

// The bytes of a written frame, at most 8192; 0 where there is none.
fn written(answer: Result<u64, Refusal>) -> usize
    ensures { result ≤ 8192 }
{
    match answer {
        Ok(length) => least(length as usize, 8192),
        Err(_) => 0,
    }
}

fn is_opened(answer: Result<Opened, Refusal>, n: usize) -> bool {
    match answer {
        Ok(
            Opened {
                held: Ok(length),
                ..
            },
        ) => length == n as u64,
        _ => false,
    }
}

// Whether opening the frame in the held buffer gives what the writer gives the model.
fn opens(
    frame: &[u8],
    pixels: &[u32],
    asked: Option<Form>,
    opened: &mut [u32],
    held: &mut [u8],
    model_held: &mut [u8],
) -> bool {
    let answer = opening::open(frame, opened, asked, held);
    let again = written(writer::write(frame, pixels, asked, model_held));
    both(is_opened(answer, again), same_bytes(held, model_held))
}

fn open_row(
    stdout: &mut Output,
    row: &[u8],
    frame: &[u8],
    pixels: &[u32],
    asked: Option<Form>,
    opened: &mut [u32],
    held: &mut [u8],
    model_held: &mut [u8],
    totals: &mut [u32],
) -> io::Result<()> {
    if opens(frame, pixels, asked, opened, held, model_held) {
        play_row(stdout, row, frame, opened, asked, held, model_held, totals)
    } else {
        word(stdout, b" -> DIFFERS at the opening\n")
    }
}

// The bytes of the held buffer: the frame's and the row's room.
fn held_size(row: &[u8], frame: &[u8]) -> usize
    ensures { result ≤ 9216 }
{
    least(frame.len(), 8192) + least(value(cell(row, 5)) as usize, 1000)
}

fn hold_row(
    stdout: &mut Output,
    row: &[u8],
    frame: &[u8],
    pixels: &[u32],
    asked: Option<Form>,
    totals: &mut [u32],
) -> io::Result<()> {
    let n = least(pixels.len(), 24);
    let size = held_size(row, frame);
    let mut opened = [0u32; 24];
    let mut held = [170u8; 9216];
    let mut model_held = [170u8; 9216];
    open_row(
        stdout,
        row,
        frame,
        pixels,
        asked,
        &mut opened[0..n],
        &mut held[0..size],
        &mut model_held[0..size],
        totals,
    )
}

// The row's pixels, or made ones.
fn fill_pixels(row: &[u8], pixels: &mut [u32]) {
    if 0 < cell(row, 9).len() {
        list_pixels(pixels, cell(row, 9));
    } else {
        make_pixels(pixels, value(cell(row, 2)), value(cell(row, 7)) as u64);
    }
}

fn count_of(row: &[u8]) -> usize
    ensures { result ≤ 24 }
{
    let image = Image {
        start: 0,
        rows: value(cell(row, 3)),
        columns: value(cell(row, 4)),
        width: Width::One,
    };
    least(layout::pixel_count(image), 24)
}

// Makes the row's frame.
fn write_row(
    stdout: &mut Output,
    row: &[u8],
    header: &[u8],
    pixels: &mut [u32],
    totals: &mut [u32],
) -> io::Result<()> {
    fill_pixels(row, pixels);
    let asked = asked_form(value(cell(row, 0)), value(cell(row, 1)));
    let mut frame = [0u8; 8192];
    let end = written(writer::write(header, pixels, asked, &mut frame));
    hold_row(stdout, row, &frame[0..end], pixels, asked, totals)
}

fn run(stdout: &mut Output, row: &[u8], totals: &mut [u32]) -> io::Result<()> {
    word(stdout, row)?;
    let mut header = [b' '; 7680];
    put_header(&mut header, cell(row, 3), cell(row, 4), cell(row, 2));
    let n = count_of(row);
    let mut pixels = [0u32; 24];
    write_row(stdout, row, &header, &mut pixels[0..n], totals)
}

fn is_heading(row: &[u8]) -> bool {
    0 < row.len() && row[0] == b'#'
}

fn run_row(stdout: &mut Output, row: &[u8], totals: &mut [u32]) -> io::Result<()> {
    if is_heading(row) {
        word(stdout, row)?;
        word(stdout, b"\n")
    } else {
        run(stdout, row, totals)
    }
}

fn run_rows(stdout: &mut Output, text: &[u8], totals: &mut [u32]) -> io::Result<()> {
    let mut at = 0;
    while at < text.len() {
        let end = find(text, at, b'\n');
        run_row(stdout, &text[at..end], totals)?;
        at = end + 1;
    }
    Ok(())
}

fn main(rt: HostRuntime) -> io::Result<()> {
    let mut stdout = console::output(&rt)?;
    let mut text = [0u8; 65536];
    let n = console::read_full(&mut rt.stdin(), &mut text)?;
    let mut totals = [0u32; 28];
    run_rows(&mut stdout, &text[..n], &mut totals)?;
    word(&mut stdout, b"totals")?;
    show_tally(&mut stdout, &totals)?;
    word(&mut stdout, b"\n")?;
    stdout.flush()
}
