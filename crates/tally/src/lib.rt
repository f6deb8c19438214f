// How many entries of a table are 0, are a mark, and lie outside a range.
#![tactic(auto)]

ghost use Rattle.std.specs.Prelude.{◌≡◌, ◌&&◌, ◌+◌, ◌*◌, ◌/◌, ◌^◌, ◌<◌, ◌≤◌, length, eqb, leb, if◌then◌else◌};
ghost use Rattle.layout.specs.Form.{width_bytes};
ghost use Rattle.table.specs.Table.{entries, whole_entries};
ghost use Rattle.expand.specs.Steps.{count};
ghost use Rattle.tally.specs.Tally.{is_outside, tally_of, tally_more, bytes_tally};

use layout::Width;

#[derive(Clone, Copy)]
pub struct Tally {
    pub zeros: usize,
    pub marks: usize,
    pub outside: usize,
}

// As many entries as the block has places. Each width is written at the call, so that each loop is compiled for its width.
fn load_block(t: &[u8], w: Width, block: &mut [u32])
    requires { length block.old * width_bytes w ≤ length t.now }
    ensures { block.new ≡ entries (width_bytes w) (length block.old) t.now }
{
    match w {
        Width::One => {
            table::load(t, Width::One, block);
        }
        Width::Two => {
            table::load(t, Width::Two, block);
        }
        Width::Four => {
            table::load(t, Width::Four, block);
        }
    }
}

// The counts of a block of numbers. The body has no branch, so that the loop is made of vector instructions.
fn tally_block(block: &[u32], mark: u32, low: u32, high: u32) -> Tally
    requires { length block.now < 2 ^ 32 }
    ensures { result ≡ tally_of mark low high block.now }
{
    let mut zeros: u32 = 0;
    let mut marks: u32 = 0;
    let mut outside: u32 = 0;
    for v in block {
        zeros += u32::from(*v == 0);
        marks += u32::from(*v == mark);
        outside += u32::from((*v < low) | (high < *v));
    }
    Tally {
        zeros: zeros as usize,
        marks: marks as usize,
        outside: outside as usize,
    }
}

// The counts of as many entries as the block has places.
fn tally_part(t: &[u8], w: Width, mark: u32, low: u32, high: u32, block: &mut [u32]) -> Tally
    requires { (length block.old * width_bytes w ≤ length t.now) × (length block.old < 2 ^ 32) }
    ensures { result ≡ tally_of mark low high (entries (width_bytes w) (length block.old) t.now) }
{
    load_block(t, w, block);
    tally_block(block, mark, low, high)
}

fn add_tallies(a: Tally, b: Tally) -> Tally
    requires { (a.zeros + b.zeros < 2 ^ 64) × (a.marks + b.marks < 2 ^ 64) × (a.outside + b.outside < 2 ^ 64) }
    ensures { result ≡ tally_more a b }
{
    Tally {
        zeros: a.zeros + b.zeros,
        marks: a.marks + b.marks,
        outside: a.outside + b.outside,
    }
}

// The counts of all whole entries, in one pass over blocks.
fn tally_blocks(t: &[u8], w: Width, mark: u32, low: u32, high: u32, room: &mut [u32]) -> Tally
    requires { length room.old ≡ 64 }
    ensures { result ≡ tally_of mark low high (whole_entries (width_bytes w) t.now) }
{
    let each = layout::width_bytes(w);
    let n = t.len() / each;
    let mut c = Tally {
        zeros: 0,
        marks: 0,
        outside: 0,
    };
    for block in 0..n.div_ceil(64) {
        let p = block * 64;
        let k = (n - p).min(64);
        let at = p * each;
        let d = tally_part(&t[at..], w, mark, low, high, &mut room[..k]);
        c = add_tallies(c, d);
    }
    c
}

// How many bytes are m, counted in a byte.
fn count_byte(s: &[u8], m: u8) -> u8
    requires { length s.now ≤ 255 }
    ensures { result ≡ count m s.now }
{
    let mut k: u8 = 0;
    for b in s {
        k += u8::from(*b == m);
    }
    k
}

// The counts of bytes, none of which lies outside its range.
fn tally_bytes(t: &[u8], mark: u8) -> Tally
    ensures { result ≡ bytes_tally mark t.now }
{
    let mut zeros: usize = 0;
    let mut marks: usize = 0;
    for block in 0..t.len().div_ceil(192) {
        let p = block * 192;
        let e = p + (t.len() - p).min(192);
        zeros += count_byte(&t[p..e], 0) as usize;
        marks += count_byte(&t[p..e], mark) as usize;
    }
    Tally {
        zeros,
        marks,
        outside: 0,
    }
}

// The range holds every byte, and the mark is one.
fn holds_bytes(mark: u32, low: u32, high: u32) -> bool
    ensures { result ≡ (leb mark 255 && eqb low 0 && leb 255 high) }
{
    mark <= 255 && low == 0 && 255 <= high
}

// The counts of all whole entries of a table. Bytes are counted where they stand. The mark and the range stay three numbers: a struct of
// them would be made in this one call and taken apart in each loop.
pub fn tally_table(t: &[u8], w: Width, mark: u32, low: u32, high: u32) -> Tally
    ensures { result ≡ tally_of mark low high (whole_entries (width_bytes w) t.now) }
{
    if let Width::One = w {
        if holds_bytes(mark, low, high) {
            return tally_bytes(t, mark as u8);
        }
    }
    let mut room = [0u32; 64];
    tally_blocks(t, w, mark, low, high, &mut room)
}
