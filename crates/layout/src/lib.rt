// What a header says of a frame's parts: the form, the image and the tables.
#![tactic(auto)]

ghost use Rattle.std.specs.Prelude.{◌≡◌};
ghost use Rattle.layout.specs.Form.{width_bytes, entry_bytes, entry_width, underflow_bytes, width_from, entry_from};
ghost use Rattle.layout.specs.Layout.{pixel_count, table_bytes, text_table_bytes};

// The bytes of a stored pixel or of a table's entry.
#[derive(Clone, Copy)]
pub enum Width {
    One,
    Two,
    Four,
}

// The bytes of an underflow entry.
#[derive(Clone, Copy)]
pub enum EntryWidth {
    One,
    Two,
}

// Whether the baseline is subtracted, and then the width of an underflow entry. An enum of its own, since document 01's list of forms has one.
#[derive(Clone, Copy)]
pub enum Underflow {
    None,
    Subtracted(EntryWidth),
}

// The pixel width together with the underflow kind: document 01's form of a frame.
#[derive(Clone, Copy)]
pub struct Form {
    pub width: Width,
    pub underflow: Underflow,
}

// The image: it starts where the header ends.
#[derive(Clone, Copy)]
pub struct Image {
    pub start: u32,
    pub rows: u32,
    pub columns: u32,
    pub width: Width,
}

// The underflow table of FORMAT 100: a count of -1; a count of 0 with an underflow width of 0; a count with a width.
#[derive(Clone, Copy)]
pub enum Underflows {
    Unused,
    NoWidth {
        baseline: u32,
    },
    Counted {
        entry: EntryWidth,
        count: u32,
        baseline: u32,
    },
}

// The tables of FORMAT 100.
#[derive(Clone, Copy)]
pub struct BinaryTables {
    pub underflows: Underflows,
    pub two: u32,
    pub four: u32,
}

#[derive(Clone, Copy)]
pub enum Tables {
    Format86 { entries: u32 },
    Format100(BinaryTables),
}

// An accepted header's numbers.
#[derive(Clone, Copy)]
pub struct Header {
    pub image: Image,
    pub tables: Tables,
}

// What reading an image answers: its size, and where the frame ends.
#[derive(Clone, Copy, Default)]
pub struct Frame {
    pub rows: u32,
    pub columns: u32,
    pub end: u64,
}

pub fn width_bytes(w: Width) -> usize
    ensures { result ≡ width_bytes w }
{
    match w {
        Width::One => 1,
        Width::Two => 2,
        Width::Four => 4,
    }
}

pub fn entry_bytes(e: EntryWidth) -> usize
    ensures { result ≡ entry_bytes e }
{
    match e {
        EntryWidth::One => 1,
        EntryWidth::Two => 2,
    }
}

pub fn entry_width(e: EntryWidth) -> Width
    ensures { result ≡ entry_width e }
{
    match e {
        EntryWidth::One => Width::One,
        EntryWidth::Two => Width::Two,
    }
}

// The bytes of an underflow entry; kind none has none.
pub fn underflow_bytes(u: Underflow) -> u32
    ensures { result ≡ underflow_bytes u }
{
    match u {
        Underflow::None => 0,
        Underflow::Subtracted(e) => entry_bytes(e) as u32,
    }
}

// The pixel width of a number of bytes. An Option, as below: the error type of a TryFrom would say no more.
#[tactic(auto, unfolding(crate::specs::Form::width_from))]
pub fn width_from(bytes: u32) -> Option<Width>
    ensures { result ≡ width_from bytes }
{
    match bytes {
        1 => Some(Width::One),
        2 => Some(Width::Two),
        4 => Some(Width::Four),
        _ => None,
    }
}

// The underflow width of a number of bytes.
#[tactic(auto, unfolding(crate::specs::Form::entry_from))]
pub fn entry_from(bytes: u32) -> Option<EntryWidth>
    ensures { result ≡ entry_from bytes }
{
    match bytes {
        1 => Some(EntryWidth::One),
        2 => Some(EntryWidth::Two),
        _ => None,
    }
}

// The number of pixels.
pub fn pixel_count(i: Image) -> usize
    ensures { result ≡ pixel_count i }
{
    let rows = i.rows as usize;
    let columns = i.columns as usize;
    rows * columns
}

// The bytes of a table of FORMAT 100 with its padding.
pub fn table_bytes(w: Width, count: u32) -> usize
    ensures { result ≡ table_bytes (width_bytes w) count }
{
    let each = width_bytes(w);
    let n = count as usize;
    (n * each + 15) / 16 * 16
}

// The bytes of the underflow table with its padding.
pub fn underflow_table_bytes(u: Underflow, count: u32) -> usize
    ensures { result ≡ table_bytes (underflow_bytes u) count }
{
    match u {
        Underflow::None => 0,
        Underflow::Subtracted(e) => table_bytes(entry_width(e), count),
    }
}

// The bytes of the table of FORMAT 86 with its padding.
pub fn text_table_bytes(entries: u32) -> usize
    ensures { result ≡ text_table_bytes entries }
{
    let n = entries as usize;
    (n * 16 + 511) / 512 * 512
}
