// Reading a header: its numbers, or the refusal that is due first.
#![tactic(auto)]

ghost use Rattle.std.specs.Prelude.{◌≡◌, ◌<◌, length};
ghost use Rattle.header.specs.Steps.{line_number, number_in};
ghost use Rattle.header.specs.Lead.{format_from, is_version, is_blocks, lead_numbers, lead_of};
ghost use Rattle.header.specs.Body.{counts86, counts100, counts_in, widths86, widths100, widths_in, baseline_text, baseline_of, baseline_in, is_linear};
ghost use Rattle.header.specs.Ranges.{is_size, underflows_from, unused_from, underflows_of, tables_from, ranged_of};
ghost use Rattle.header.specs.Header.{body_of, header_of};

use field::Cursor;
use header_lines::LineId;
use layout::{BinaryTables, Header, Image, Tables, Underflows};
use refusal::Refusal;

// What a line has to give; a bad field of it is refusal 3 with the line's position.
fn line_number<T: Drop>(id: LineId, field: Option<T>) -> Result<T, Refusal>
    ensures { result ≡ line_number id field }
{
    field.ok_or(Refusal::BadField {
        line: header_lines::position_of(id),
    })
}

// The first number of a line of the header.
#[tactic(auto, unfolding(crate::specs::Steps::number_in))]
fn number_in(id: LineId, header: &[u8]) -> Result<u32, Refusal>
    ensures { result ≡ number_in id header.now }
{
    let text = header_lines::data_of(header, id).ok_or(Refusal::BadLine)?;
    let (n, _) = line_number(id, line_reader::number_at(text, 0))?;
    Ok(n)
}

#[derive(Clone, Copy)]
pub enum Format {
    Format86,
    Format100,
}

// An Option: the error type of a TryFrom would say no more than None.
#[tactic(auto, unfolding(crate::specs::Lead::format_from))]
fn format_from(n: u32) -> Option<Format>
    ensures { result ≡ format_from n }
{
    match n {
        86 => Some(Format::Format86),
        100 => Some(Format::Format100),
        _ => None,
    }
}

fn is_version(n: u32) -> bool
    ensures { result ≡ is_version n }
{
    1 <= n && n <= 17 && n != 6
}

fn is_blocks(format: Format, n: u32) -> bool
    ensures { result ≡ is_blocks format n }
{
    10 <= n
        && n <= 64
        && match format {
            Format::Format86 => n % 5 == 0,
            Format::Format100 => true,
        }
}

// FORMAT, and HDRBLKS in bytes.
#[derive(Clone, Copy)]
pub struct Lead {
    pub format: Format,
    pub length: u32,
}

// The numbers of lines 0 to 2, given their data.
#[tactic(auto, unfolding(crate::specs::Lead::lead_numbers))]
fn lead_numbers(format: &[u8], version: &[u8], blocks: &[u8]) -> Result<Lead, Refusal>
    ensures { result ≡ lead_numbers format.now version.now blocks.now }
{
    let (f, _) = line_number(LineId::Format, line_reader::number_at(format, 0))?;
    let format = format_from(f).ok_or(Refusal::UnknownFormat)?;
    let (v, _) = line_number(LineId::Version, Cursor { at: 0 }.version(version))?;
    if !is_version(v) {
        return Err(Refusal::UnknownVersion);
    }
    let (b, _) = line_number(LineId::Hdrblks, line_reader::number_at(blocks, 0))?;
    if !is_blocks(format, b) {
        return Err(Refusal::BadHeaderBlocks);
    }
    Ok(Lead {
        format,
        length: b * 512,
    })
}

// Lines 0 to 2.
#[tactic(auto, unfolding(crate::specs::Lead::lead_of))]
fn read_lead(bytes: &[u8]) -> Result<Lead, Refusal>
    ensures { result ≡ lead_of bytes.now }
{
    if bytes.len() < 240 {
        return Err(Refusal::HeaderTruncated);
    }
    let format = header_lines::data_of(bytes, LineId::Format).ok_or(Refusal::WrongName)?;
    let version = header_lines::data_of(bytes, LineId::Version).ok_or(Refusal::WrongName)?;
    let blocks = header_lines::data_of(bytes, LineId::Hdrblks).ok_or(Refusal::WrongName)?;
    lead_numbers(format, version, blocks)
}

// The numbers of NOVERFL.
#[derive(Clone, Copy)]
pub enum Counts {
    Format86 {
        entries: u32,
    },
    Format100 {
        underflows: Option<u32>,
        two: u32,
        four: u32,
    },
}

#[tactic(auto, unfolding(crate::specs::Body::counts86))]
fn counts_86(text: &[u8]) -> Result<Counts, Refusal>
    ensures { result ≡ counts86 text.now }
{
    let (entries, _) = line_number(LineId::Noverfl, line_reader::number_at(text, 0))?;
    Ok(Counts::Format86 { entries })
}

// The underflow count or -1, and the two-byte and four-byte counts.
#[tactic(auto, unfolding(crate::specs::Body::counts100, crate::specs::Body::binary_counts))]
fn counts_100(text: &[u8]) -> Result<Counts, Refusal>
    ensures { result ≡ counts100 text.now }
{
    let (underflows, first) = line_number(LineId::Noverfl, (Cursor { at: 0 }).count(text))?;
    let (two, second) = line_number(LineId::Noverfl, line_reader::number_at(text, first.at))?;
    let (four, _) = line_number(LineId::Noverfl, line_reader::number_at(text, second.at))?;
    Ok(Counts::Format100 {
        underflows,
        two,
        four,
    })
}

// NOVERFL.
#[tactic(auto, unfolding(crate::specs::Body::counts_in))]
fn counts_in(format: Format, header: &[u8]) -> Result<Counts, Refusal>
    ensures { result ≡ counts_in format header.now }
{
    let text = header_lines::data_of(header, LineId::Noverfl).ok_or(Refusal::BadLine)?;
    match format {
        Format::Format86 => counts_86(text),
        Format::Format100 => counts_100(text),
    }
}

// The numbers of NPIXELB; FORMAT 86 has no underflow width, and its 0 stands for none.
#[derive(Clone, Copy)]
pub struct Widths {
    pub pixel: u32,
    pub underflow: u32,
}

#[tactic(auto, unfolding(crate::specs::Body::widths86))]
fn widths_86(text: &[u8]) -> Result<Widths, Refusal>
    ensures { result ≡ widths86 text.now }
{
    let (pixel, _) = line_number(LineId::Npixelb, line_reader::number_at(text, 0))?;
    Ok(Widths {
        pixel,
        underflow: 0,
    })
}

#[tactic(auto, unfolding(crate::specs::Body::widths100))]
fn widths_100(text: &[u8]) -> Result<Widths, Refusal>
    ensures { result ≡ widths100 text.now }
{
    let (pixel, next) = line_number(LineId::Npixelb, line_reader::number_at(text, 0))?;
    let (underflow, _) = line_number(LineId::Npixelb, line_reader::number_at(text, next.at))?;
    Ok(Widths { pixel, underflow })
}

// NPIXELB.
#[tactic(auto, unfolding(crate::specs::Body::widths_in))]
fn widths_in(format: Format, header: &[u8]) -> Result<Widths, Refusal>
    ensures { result ≡ widths_in format header.now }
{
    let text = header_lines::data_of(header, LineId::Npixelb).ok_or(Refusal::BadLine)?;
    match format {
        Format::Format86 => widths_86(text),
        Format::Format100 => widths_100(text),
    }
}

// The third field of NEXP; the first two may be anything.
#[tactic(auto, unfolding(crate::specs::Body::baseline_text))]
fn baseline_text(text: &[u8]) -> Result<u32, Refusal>
    ensures { result ≡ baseline_text text.now }
{
    let first = line_number(LineId::Nexp, line_reader::field_at(text, 0))?;
    let second = line_number(LineId::Nexp, line_reader::field_at(text, first.next.at))?;
    let (n, _) = line_number(LineId::Nexp, line_reader::number_at(text, second.next.at))?;
    Ok(n)
}

// The baseline that NEXP gives, whatever its range.
#[tactic(auto, unfolding(crate::specs::Body::baseline_of))]
pub fn baseline_of(header: &[u8]) -> Result<u32, Refusal>
    ensures { result ≡ baseline_of header.now }
{
    let text = header_lines::data_of(header, LineId::Nexp).ok_or(Refusal::BadLine)?;
    baseline_text(text)
}

// NEXP is read only where there is an underflow count; elsewhere the baseline is 0 and stands for none.
fn baseline_in(counts: Counts, header: &[u8]) -> Result<u32, Refusal>
    ensures { result ≡ baseline_in counts header.now }
{
    match counts {
        Counts::Format100 {
            underflows: Some(_),
            ..
        } => baseline_of(header),
        _ => Ok(0),
    }
}

// LINEAR is 1 and 0.
#[tactic(auto, unfolding(crate::specs::Body::is_linear))]
fn is_linear(text: &[u8]) -> bool
    ensures { result ≡ is_linear text.now }
{
    match (Cursor { at: 0 }).decimal(text, 1) {
        Some(next) => next.decimal(text, 0).is_some(),
        None => false,
    }
}

// Rows or columns are in range.
fn is_size(format: Format, n: u32) -> bool
    ensures { result ≡ is_size format n }
{
    1 <= n
        && match format {
            Format::Format86 => n <= 2048,
            Format::Format100 => n <= 4096,
        }
}

// The underflow table of a count, a width and a baseline.
#[tactic(auto, unfolding(crate::specs::Ranges::underflows_from))]
fn underflows_from(count: u32, width: u32, baseline: u32) -> Option<Underflows>
    ensures { result ≡ underflows_from count width baseline }
{
    if 65535 < baseline {
        return None;
    }
    if width == 0 {
        return if count == 0 {
            Some(Underflows::NoWidth { baseline })
        } else {
            None
        };
    }
    let entry = layout::entry_from(width)?;
    Some(Underflows::Counted {
        entry,
        count,
        baseline,
    })
}

fn unused_from(width: u32) -> Option<Underflows>
    ensures { result ≡ unused_from width }
{
    if width <= 2 {
        Some(Underflows::Unused)
    } else {
        None
    }
}

fn underflows_of(underflows: Option<u32>, width: u32, baseline: u32) -> Option<Underflows>
    ensures { result ≡ underflows_of underflows width baseline }
{
    match underflows {
        None => unused_from(width),
        Some(n) => underflows_from(n, width, baseline),
    }
}

// The tables that the counts, the underflow width and the baseline describe.
fn tables_from(counts: Counts, width: u32, baseline: u32) -> Option<Tables>
    ensures { result ≡ tables_from counts width baseline }
{
    match counts {
        Counts::Format86 { entries } => Some(Tables::Format86 { entries }),
        Counts::Format100 {
            underflows,
            two,
            four,
        } => {
            let underflows = underflows_of(underflows, width, baseline)?;
            Some(Tables::Format100(BinaryTables {
                underflows,
                two,
                four,
            }))
        }
    }
}

// The numbers of the header's lines, before their ranges are judged.
#[derive(Clone, Copy)]
pub struct Numbers {
    pub counts: Counts,
    pub widths: Widths,
    pub rows: u32,
    pub columns: u32,
    pub baseline: u32,
}

// Refusal 8, or the header of a given length.
#[tactic(auto, unfolding(crate::specs::Ranges::ranged_of))]
fn ranged(format: Format, length: u32, numbers: Numbers) -> Result<Header, Refusal>
    ensures { result ≡ ranged_of format length numbers }
{
    let Numbers {
        counts,
        widths,
        rows,
        columns,
        baseline,
    } = numbers;
    if !is_size(format, rows) || !is_size(format, columns) {
        return Err(Refusal::OutOfRange);
    }
    let width = layout::width_from(widths.pixel).ok_or(Refusal::OutOfRange)?;
    let tables = tables_from(counts, widths.underflow, baseline).ok_or(Refusal::OutOfRange)?;
    let image = Image {
        start: length,
        rows,
        columns,
        width,
    };
    Ok(Header { image, tables })
}

// Lines 20 to 79, of a header of its full length; refusal 9 comes after 8.
#[tactic(auto, unfolding(crate::specs::Header::body_of))]
fn read_body(format: Format, header: &[u8]) -> Result<Header, Refusal>
    requires { length header.now < 4294967296 }
    ensures { result ≡ body_of format header.now }
{
    let counts = counts_in(format, header)?;
    let widths = widths_in(format, header)?;
    let rows = number_in(LineId::Nrows, header)?;
    let columns = number_in(LineId::Ncols, header)?;
    let linear = header_lines::data_of(header, LineId::Linear).ok_or(Refusal::BadLine)?;
    let baseline = baseline_in(counts, header)?;
    let numbers = Numbers {
        counts,
        widths,
        rows,
        columns,
        baseline,
    };
    let read = ranged(format, header.len() as u32, numbers)?;
    if !is_linear(linear) {
        return Err(Refusal::NotLinear);
    }
    Ok(read)
}

// The header at the front of the bytes.
#[tactic(auto, unfolding(crate::specs::Header::header_of))]
pub fn read_header(bytes: &[u8]) -> Result<Header, Refusal>
    ensures { result ≡ header_of bytes.now }
{
    let Lead { format, length } = read_lead(bytes)?;
    let end = length as usize;
    if bytes.len() < end {
        return Err(Refusal::HeaderTruncated);
    }
    read_body(format, &bytes[..end])
}
