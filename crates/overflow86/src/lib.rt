// FORMAT 86: the pixels of a frame whose large intensities stand in a table of text.
#![tactic(auto)]

ghost use Rattle.std.specs.Prelude.{◌≡◌, position, not, ◌==◌, map, ◌+◌, ◌*◌, ◌≤◌, ◌<◌, ltb, length, drop, if◌then◌else◌};
ghost use Rattle.layout.specs.Form.{width_bytes};
ghost use Rattle.table.specs.Table.{entries};
ghost use Rattle.overflow86.specs.Entries.{after_spaces, digits_number, text_number, entry_of, text_entries};
ghost use Rattle.overflow86.specs.Expand86.{checked_of, frame_pixels, text_answer, text_pixels};
ghost use Rattle.marks.specs.Steps.{placing, placed, count_of};
ghost use Rattle.overflow86.specs.Steps.{waiting, has_marks, placing_in, placed_in, marks_in, awaiting, waiting_if, one_if};

use layout::{Image, Width};
use marks::Entry;
use refusal::Refusal;

// What a stored pixel holds until its entry comes.
const WAITING: u32 = 4294967295;

// Where the spaces at the front of t end, if another character follows.
fn spaces_end(t: &[u8]) -> Option<usize>
    ensures { result ≡ position (λ b. not (b == 32)) t.now }
{
    t.iter().position(|b| *b != b' ')
}

// The number whose digits are those of t.
fn digits_number(t: &[u8]) -> Option<u32>
    requires { length t.now ≤ 9 }
    ensures { result ≡ digits_number t.now }
{
    if t.is_empty() {
        return None;
    }
    let mut v: u32 = 0;
    for b in t {
        if !b.is_ascii_digit() {
            return None;
        }
        v = v * 10 + u32::from(*b - b'0');
    }
    Some(v)
}

fn text_number(t: &[u8]) -> Option<u32>
    requires { length t.now ≤ 9 }
    ensures { result ≡ text_number t.now }
{
    let from = spaces_end(t)?;
    digits_number(&t[from..])
}

// The entry whose 16 characters start at `at`.
fn entry_at(table: &[u8], at: usize) -> Option<Entry>
    requires { at + 16 ≤ length table.now }
    ensures { result ≡ entry_of (drop at table.now) }
{
    let mid = at + 9;
    let end = at + 16;
    let intensity = text_number(&table[at..mid])?;
    let pixel = text_number(&table[mid..end])?;
    Some(Entry { intensity, pixel })
}

// Takes the n entries of the table in file order; the first bad one decides, by a loop that breaks there (document 01, list of forms by place).
fn place_entries(table: &[u8], n: u32, pixels: &mut [u32]) -> Result<(), Refusal>
    requires { n * 16 ≤ length table.now }
    ensures value { result ≡ placing waiting pixels.old 0 (text_entries n table.now) }
    ensures pixels_after { pixels.new ≡ placed waiting pixels.old (text_entries n table.now) }
{
    let mut checked = Ok(());
    for k in 0..n {
        let e = entry_at(table, k as usize * 16);
        if !marks::place_entry(e, WAITING, pixels) {
            checked = Err(Refusal::BadEntry { entry: k });
            break;
        }
    }
    checked
}

fn waiting_if(v: u32, mark: u32) -> u32
    ensures { result ≡ waiting_if mark v }
{
    if v == mark { WAITING } else { v }
}

// Makes each mark of the pixels wait, and counts them. The body has no branch on the pixel.
fn await_entries(pixels: &mut [u32], mark: u32) -> usize
    ensures value { result ≡ count_of mark pixels.old }
    ensures pixels_after { pixels.new ≡ map (waiting_if mark) pixels.old }
{
    let mut marks: usize = 0;
    for v in pixels.iter_mut() {
        marks += usize::from(*v == mark);
        *v = waiting_if(*v, mark);
    }
    marks
}

// A block of the stored image, with its marks waiting and counted. Always a part of its callers, which know the width and the mark.
#[inline(always)]
fn load_block(image: &[u8], w: Width, mark: u32, pixels: &mut [u32]) -> usize
    requires { length pixels.old * width_bytes w ≤ length image.now }
    ensures value { result ≡ count_of mark (entries (width_bytes w) (length pixels.old) image.now) }
    ensures pixels_after { pixels.new ≡ map (waiting_if mark) (entries (width_bytes w) (length pixels.old) image.now) }
{
    table::load(image, w, pixels);
    if table::holds(pixels, mark) {
        await_entries(pixels, mark)
    } else {
        0
    }
}

// The stored image by blocks, with its marks waiting and counted: 64 pixels stay in the nearest cache, and few blocks hold a mark. What is
// left over stands behind the loop, so that the compiler knows the length of a block: one loop for both takes twice the instructions.
#[inline(always)]
fn load_marks(image: &[u8], w: Width, mark: u32, pixels: &mut [u32]) -> usize
    requires { length pixels.old * width_bytes w ≤ length image.now }
    ensures value { result ≡ count_of mark (entries (width_bytes w) (length pixels.old) image.now) }
    ensures pixels_after { pixels.new ≡ map (waiting_if mark) (entries (width_bytes w) (length pixels.old) image.now) }
{
    let each = layout::width_bytes(w);
    let n = pixels.len();
    let mut marks: usize = 0;
    for block in 0..n / 64 {
        let p = block * 64;
        let at = p * each;
        marks += load_block(&image[at..], w, mark, &mut pixels[p..p + 64]);
    }
    let p = n - n % 64;
    let at = p * each;
    marks + load_block(&image[at..], w, mark, &mut pixels[p..])
}

// A width written at the call makes the read of a pixel a single load.
fn load_waiting(image: &[u8], w: Width, pixels: &mut [u32]) -> usize
    requires { length pixels.old * width_bytes w ≤ length image.now }
    ensures value { result ≡ marks_in w (entries (width_bytes w) (length pixels.old) image.now) }
    ensures pixels_after { pixels.new ≡ awaiting w (entries (width_bytes w) (length pixels.old) image.now) }
{
    match w {
        Width::One => load_marks(image, Width::One, 255, pixels),
        Width::Two => load_marks(image, Width::Two, 65535, pixels),
        Width::Four => {
            table::load(image, Width::Four, pixels);
            0
        }
    }
}

// In width 4 no pixel waits, whatever its value.
fn take_entries(w: Width, table: &[u8], n: u32, pixels: &mut [u32]) -> Result<(), Refusal>
    requires { n * 16 ≤ length table.now }
    ensures value { result ≡ placing_in w pixels.old (text_entries n table.now) }
    ensures pixels_after { pixels.new ≡ placed_in w pixels.old (text_entries n table.now) }
{
    match w {
        Width::One | Width::Two => place_entries(table, n, pixels),
        Width::Four if n == 0 => Ok(()),
        Width::Four => Err(Refusal::BadEntry { entry: 0 }),
    }
}

// The whole array, from the image's bytes and the table's. Not by `?`: a refusal sets the pixels to 0 first.
fn fill(image: &[u8], w: Width, table: &[u8], n: u32, pixels: &mut [u32]) -> Result<(), Refusal>
    requires { (length pixels.old * width_bytes w ≤ length image.now) × (n * 16 ≤ length table.now) }
    ensures value { result ≡ checked_of w (entries (width_bytes w) (length pixels.old) image.now) (text_entries n table.now) }
    ensures pixels_after { pixels.new ≡ frame_pixels w (entries (width_bytes w) (length pixels.old) image.now) (text_entries n table.now) }
{
    let marks = load_waiting(image, w, pixels);
    let checked = take_entries(w, table, n, pixels);
    let Ok(()) = checked else {
        table::clear(pixels);
        return checked;
    };
    if marks == n as usize {
        return checked;
    }
    table::clear(pixels);
    Err(Refusal::CountMismatch)
}

// The pixels of a frame of FORMAT 86, whose table has so many entries.
pub fn expand86(bytes: &[u8], image: Image, count: u32, pixels: &mut [u32]) -> Result<u64, Refusal>
    ensures value { result ≡ text_answer bytes.now image count (length pixels.old) }
    ensures pixels_after { pixels.new ≡ text_pixels bytes.now image count pixels.old }
{
    let n = layout::pixel_count(image);
    if pixels.len() < n {
        return Err(Refusal::PixelArrayShort);
    }
    let w = image.width;
    let start = image.start as usize;
    let table = start + n * layout::width_bytes(w);
    let end = table + layout::text_table_bytes(count);
    if bytes.len() < end {
        return Err(Refusal::DataTruncated);
    }
    fill(
        &bytes[start..table],
        w,
        &bytes[table..end],
        count,
        &mut pixels[..n],
    )?;
    Ok(end as u64)
}
