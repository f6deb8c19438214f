// The header of a d*TREK image: any bytes give its numbers or one refusal.
#![tactic(auto)]

ghost use Rattle.std.specs.Prelude.{◌≡◌, ◌≤◌, length};
ghost use Rattle.numeral.specs.Numerals.{number_of};
ghost use Rattle.dtrek_text.specs.Items.{items};
ghost use Rattle.dtrek_items.specs.Survey.{value_at, Found};
ghost use Rattle.dtrek_header.specs.Length.{is_length, length_from, header_length};
ghost use Rattle.dtrek_header.specs.Contents.{is_two, is_side, are_sizes, is_order, required_from, is_type, supported_from, count_of, order_of, width_of, header_from};
ghost use Rattle.dtrek_header.specs.DtrekHeader.{contents_in, header_in, dtrek_header};

use byte_order::ByteOrder;
use dtrek_items::{Content, Contents};
use layout::{Image, Width};
use refusal::Refusal;

#[derive(Clone, Copy)]
pub struct DtrekHeader {
    pub image: Image,
    pub order: ByteOrder,
}

fn is_length(n: u32) -> bool
    ensures { result ≡ is_length n }
{
    if n <= 99840 {
        512 <= n && n % 512 == 0
    } else {
        false
    }
}

fn length_from(number: Option<u32>) -> Option<u32>
    ensures { result ≡ length_from number }
{
    let n = number?;
    if is_length(n) { Some(n) } else { None }
}

pub fn header_length(file: &[u8]) -> Option<u32>
    ensures { result ≡ header_length file.now }
{
    if file.len() < 21 {
        return None;
    }
    if file[20] != 59 {
        return None;
    }
    if file.starts_with(b"{\nHEADER_BYTES=") {
        length_from(numeral::number_of(dtrek_text::trim(&file[15..20])))
    } else {
        None
    }
}

fn number_at(text: &[u8], c: Option<Content>) -> Option<u32>
    ensures { result ≡ number_of (value_at text.now c) }
{
    numeral::number_of(dtrek_items::value(text, c))
}

fn is_two(number: Option<u32>) -> bool
    ensures { result ≡ is_two number }
{
    number == Some(2)
}

fn is_side(n: u32) -> bool
    ensures { result ≡ is_side n }
{
    1 <= n && n <= 4096
}

fn are_sizes(first: Option<u32>, second: Option<u32>) -> bool
    ensures { result ≡ are_sizes first second }
{
    match (first, second) {
        (Some(a), Some(b)) => is_side(a) && is_side(b) || a == 0 && b == 0,
        _ => false,
    }
}

fn is_order(v: &[u8]) -> bool
    ensures { result ≡ is_order v.now }
{
    dtrek_text::same(v, b"big_endian") || dtrek_text::same(v, b"little_endian")
}

// Refusal 34: what must be there.
fn has_required(
    text: &[u8],
    f: Contents,
    columns: Option<u32>,
    rows: Option<u32>,
    order: &[u8],
) -> bool
    requires { Found text.now f }
    ensures { result ≡ required_from columns rows order.now (items text.now) }
{
    is_two(number_at(text, f.dim))
        && are_sizes(columns, rows)
        && is_order(order)
        && dtrek_items::is_there(f.kind)
}

fn is_type(v: &[u8]) -> bool
    ensures { result ≡ is_type v.now }
{
    dtrek_text::same(v, b"unsigned char")
        || dtrek_text::same(v, b"unsigned short int")
        || dtrek_text::same(v, b"unsigned long int")
}

// Refusal 35: what can be read.
fn is_supported(text: &[u8], f: Contents, kind: &[u8]) -> bool
    requires { Found text.now f }
    ensures { result ≡ supported_from kind.now (items text.now) }
{
    if !is_type(kind) {
        return false;
    }
    if dtrek_items::is_there(f.compression) {
        dtrek_text::same(dtrek_items::value(text, f.compression), b"none")
    } else {
        true
    }
}

fn count_of(number: Option<u32>) -> u32
    ensures { result ≡ count_of number }
{
    number.unwrap_or(0)
}

fn order_of(v: &[u8]) -> ByteOrder
    ensures { result ≡ order_of v.now }
{
    if dtrek_text::same(v, b"big_endian") {
        ByteOrder::Big
    } else {
        ByteOrder::Little
    }
}

fn width_of(v: &[u8]) -> Width
    ensures { result ≡ width_of v.now }
{
    if dtrek_text::same(v, b"unsigned char") {
        Width::One
    } else if dtrek_text::same(v, b"unsigned short int") {
        Width::Two
    } else {
        Width::Four
    }
}

fn header_from(
    n: u32,
    columns: Option<u32>,
    rows: Option<u32>,
    kind: &[u8],
    order: &[u8],
) -> DtrekHeader
    ensures { result ≡ header_from n columns rows kind.now order.now }
{
    DtrekHeader {
        image: Image {
            start: n,
            rows: count_of(rows),
            columns: count_of(columns),
            width: width_of(kind),
        },
        order: order_of(order),
    }
}

// What the values say that were found.
fn read_items(text: &[u8], f: Contents, n: u32) -> Result<DtrekHeader, Refusal>
    requires { Found text.now f }
    ensures { result ≡ contents_in n (items text.now) }
{
    let columns = number_at(text, f.size1);
    let rows = number_at(text, f.size2);
    let order = dtrek_items::value(text, f.order);
    let kind = dtrek_items::value(text, f.kind);
    if !has_required(text, f, columns, rows, order) {
        Err(Refusal::BadContent)
    } else if !is_supported(text, f, kind) {
        Err(Refusal::UnsupportedData)
    } else {
        Ok(header_from(n, columns, rows, kind, order))
    }
}

fn read_text(text: &[u8], n: u32) -> Result<DtrekHeader, Refusal>
    requires { length text.now ≤ 99840 }
    ensures { result ≡ header_in n text.now }
{
    match dtrek_items::survey(text) {
        Ok(f) => read_items(text, f, n),
        Err(_) => Err(Refusal::BadSyntax),
    }
}

// The numbers of an accepted header, or refusal 32, 1, 33, 34 or 35.
pub fn read_header(file: &[u8]) -> Result<DtrekHeader, Refusal>
    ensures { result ≡ dtrek_header file.now }
{
    let n = header_length(file).ok_or(Refusal::BadHeaderStart)?;
    match file.get(1..n as usize) {
        Some(text) => read_text(text, n),
        None => Err(Refusal::HeaderTruncated),
    }
}
