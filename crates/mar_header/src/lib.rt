// The header record of a mar image plate: its size, its byte order and how many high-intensity pairs there are.
#![tactic(auto)]

ghost use Rattle.std.specs.Prelude.{◌≡◌};
ghost use Rattle.mar_header.specs.Plate.{side_pixels, side_from, records_for};
ghost use Rattle.mar_header.specs.MarHeader.{start_by, start_of, consistent, plate_header, mar_header};

use byte_order::ByteOrder;
use refusal::Refusal;

// 1200 or 2000 pixels.
#[derive(Clone, Copy)]
pub enum Side {
    Small,
    Large,
}

// What the first number says.
#[derive(Clone, Copy)]
pub struct Start {
    pub order: ByteOrder,
    pub side: Side,
}

#[derive(Clone, Copy)]
pub struct MarHeader {
    pub order: ByteOrder,
    pub side: Side,
    pub pairs: u32,
}

pub fn side_pixels(s: Side) -> u32
    ensures { result ≡ side_pixels s }
{
    match s {
        Side::Small => 1200,
        Side::Large => 2000,
    }
}

// The size that a first number names. An Option: the error type of a TryFrom would say no more.
#[tactic(auto, unfolding(crate::specs::Plate::side_from))]
pub fn side_from(n: u32) -> Option<Side>
    ensures { result ≡ side_from n }
{
    match n {
        1200 => Some(Side::Small),
        2000 => Some(Side::Large),
        _ => None,
    }
}

// The fewest records that hold n pairs.
pub fn records_for(s: Side, n: u32) -> u32
    ensures { result ≡ records_for s n }
{
    n.div_ceil(side_pixels(s) / 4)
}

fn start_by(little: Option<Side>, big: Option<Side>) -> Option<Start>
    ensures { result ≡ start_by little big }
{
    match (little, big) {
        (Some(side), _) => Some(Start {
            order: ByteOrder::Little,
            side,
        }),
        (None, Some(side)) => Some(Start {
            order: ByteOrder::Big,
            side,
        }),
        (None, None) => None,
    }
}

#[tactic(auto, unfolding(crate::specs::MarHeader::start_of))]
fn start_of(file: &[u8]) -> Option<Start>
    ensures { result ≡ start_of file.now }
{
    if file.len() < 4 {
        return None;
    }
    let little = byte_order::number_at(file, ByteOrder::Little, 0);
    let big = byte_order::number_at(file, ByteOrder::Big, 0);
    start_by(side_from(little), side_from(big))
}

// Whether the second, third and sixth number follow from the first and the fifth.
#[tactic(auto, unfolding(crate::specs::MarHeader::consistent))]
fn is_consistent(file: &[u8], order: ByteOrder, side: Side) -> bool
    ensures { result ≡ consistent order side file.now }
{
    let pixels = side_pixels(side);
    let pairs = byte_order::number_at(file, order, 4);
    byte_order::number_at(file, order, 1) == pixels
        && byte_order::number_at(file, order, 2) == pixels * 2
        && byte_order::number_at(file, order, 5) == records_for(side, pairs)
}

fn header_at(file: &[u8], order: ByteOrder, side: Side) -> MarHeader
    ensures { result ≡ plate_header order side file.now }
{
    MarHeader {
        order,
        side,
        pairs: byte_order::number_at(file, order, 4),
    }
}

// The numbers of an accepted header, or refusal 28, 1 or 29.
#[tactic(auto, unfolding(crate::specs::MarHeader::mar_header, crate::specs::MarHeader::header_by))]
pub fn read_header(file: &[u8]) -> Result<MarHeader, Refusal>
    ensures { result ≡ mar_header file.now }
{
    let Start { order, side } = start_of(file).ok_or(Refusal::BadPlateSize)?;
    let record = side_pixels(side) as usize * 2;
    if file.len() < record {
        Err(Refusal::HeaderTruncated)
    } else if is_consistent(file, order, side) {
        Ok(header_at(file, order, side))
    } else {
        Err(Refusal::PlateMismatch)
    }
}
