// A question for one of the 25 entries of a mar header record.
#![tactic(auto)]

ghost use Rattle.std.specs.Prelude.{◌≡◌};
ghost use Rattle.std.specs.Float.{binary32};
ghost use Rattle.std.specs.Float.Ieee.{of_bits};
ghost use Rattle.mar_entry.specs.Entry.{value_of, entry_in, entry_of};

use byte_order::ByteOrder;
use refusal::Refusal;

// An unsigned number, or a single-precision float with its bits as stored.
#[derive(Clone, Copy)]
pub enum EntryValue {
    Whole(u32),
    Float { bits: u32, value: f32 },
}

// The float of a bit pattern. The language makes none of a NaN's pattern, so that one is computed.
fn float_of_bits(bits: u32) -> f32
    ensures { result ≡ of_bits binary32 bits }
{
    if 2139095040 < bits % 2147483648 {
        return 0.0 / 0.0;
    }
    f32::from_bits(bits)
}

#[tactic(auto, unfolding(crate::specs::Entry::value_of))]
fn value_of(entry: u32, bits: u32) -> EntryValue
    ensures { result ≡ value_of entry bits }
{
    if entry <= 10 {
        EntryValue::Whole(bits)
    } else {
        EntryValue::Float {
            bits,
            value: float_of_bits(bits),
        }
    }
}

// An entry behind an accepted header.
#[tactic(auto, unfolding(crate::specs::Entry::entry_in))]
fn entry_in(file: &[u8], order: ByteOrder, entry: u32) -> Result<EntryValue, Refusal>
    ensures { result ≡ entry_in file.now order entry }
{
    if entry == 0 || 25 < entry {
        return Err(Refusal::NoSuchEntry);
    }
    let bits = byte_order::number_at(file, order, entry as usize - 1);
    Ok(value_of(entry, bits))
}

// Entry 1 to 25 of a file's header record, or refusal 28, 1, 29 or 37.
#[tactic(auto, unfolding(crate::specs::Entry::entry_of))]
pub fn read_entry(file: &[u8], entry: u32) -> Result<EntryValue, Refusal>
    ensures { result ≡ entry_of file.now entry }
{
    let header = mar_header::read_header(file)?;
    entry_in(file, header.order, entry)
}
