// Reading and writing tables, once over the width of an entry.
#![tactic(auto)]

ghost use Rattle.std.specs.Prelude.{◌≡◌, ◌+◌, ◌*◌, ◌/◌, ◌≤◌, [], ◌∷◌, ◌++◌, map, length, take, drop, replicate, nat_le, slice_index, if◌then◌else◌};
ghost use Rattle.std.specs.List.{list_any};
ghost use Rattle.lists.specs.Bytes.{little, little_bytes, zeros, over};
ghost use Rattle.lists.specs.Parts.{with_part};
ghost use Rattle.layout.specs.Form.{width_bytes};
ghost use Rattle.table.specs.Table.{entries, whole_entries, all_zero};
ghost use Rattle.table.specs.Writing.{table_of, less_wrapped};

use layout::Width;

// The number in the bytes, least significant first.
fn read_le(bytes: &[u8]) -> u32
    requires { length bytes.now ≤ 4 }
    ensures { result ≡ little (length bytes.now) bytes.now }
{
    let mut v: u32 = 0;
    for i in (0..bytes.len()).rev() {
        v = v * 256 + u32::from(bytes[i]);
    }
    v
}

// Entry k of the table t, and 0 past its last whole entry. A width written at the call makes the read a single load.
pub fn entry(t: &[u8], w: Width, k: usize) -> u32
    ensures { result ≡ slice_index (whole_entries (width_bytes w) t.now) k }
{
    let each = layout::width_bytes(w);
    if k < t.len() / each {
        let at = k * each;
        read_le(&t[at..at + each])
    } else {
        0
    }
}

// The table from entry k on; no entry where it has no such one.
pub fn entries_from(t: &[u8], w: Width, k: usize) -> &[u8]
    ensures { whole_entries (width_bytes w) result.now ≡ drop k (whole_entries (width_bytes w) t.now) }
{
    let each = layout::width_bytes(w);
    let n = t.len();
    if k < n / each {
        let at = k * each;
        return &t[at..];
    }
    &t[n..]
}

// As many entries as out has places, if t has them.
pub fn load(t: &[u8], w: Width, out: &mut [u32]) -> bool
    ensures value { result ≡ nat_le (length out.old * width_bytes w) (length t.now) }
    ensures out_after { out.new ≡ if◌then◌else◌ (nat_le (length out.old * width_bytes w) (length t.now)) (entries (width_bytes w) (length out.old) t.now) out.old }
{
    let each = layout::width_bytes(w);
    if t.len() < out.len() * each {
        return false;
    }
    for (i, slot) in out.iter_mut().enumerate() {
        let at = i * each;
        *slot = read_le(&t[at..at + each]);
    }
    true
}

// Entries p to e of t, into their places.
fn load_part(t: &[u8], w: Width, p: usize, e: usize, out: &mut [u32])
    requires { (p ≤ e) × (e ≤ length out.old) × (length out.old * width_bytes w ≤ length t.now) }
    ensures { out.new ≡ with_part p e (entries (width_bytes w) (length out.old) t.now) out.old }
{
    let at = p * layout::width_bytes(w);
    load(&t[at..], w, &mut out[p..e]);
}

// The two halves side by side, 256 entries of each in turn.
fn load_both(t: &[u8], w: Width, out: &mut [u32])
    requires { length out.old * width_bytes w ≤ length t.now }
    ensures { out.new ≡ entries (width_bytes w) (length out.old) t.now }
{
    let n = out.len();
    let half = n / 2;
    for block in 0..half / 256 {
        let p = block * 256;
        let e = p + 256;
        load_part(t, w, p, e, out);
        load_part(t, w, half + p, half + e, out);
    }
    let p = half - half % 256;
    load_part(t, w, p, half, out);
    load_part(t, w, half + p, n, out);
}

// What load does, in two streams: for many entries, memory is faster so than in one.
pub fn load_halves(t: &[u8], w: Width, out: &mut [u32]) -> bool
    ensures value { result ≡ nat_le (length out.old * width_bytes w) (length t.now) }
    ensures out_after { out.new ≡ if◌then◌else◌ (nat_le (length out.old * width_bytes w) (length t.now)) (entries (width_bytes w) (length out.old) t.now) out.old }
{
    let end = out.len() * layout::width_bytes(w);
    if t.len() < end {
        return false;
    }
    load_both(t, w, out);
    true
}

// Every byte is 0. No early exit, so that the loop is made of vector instructions.
pub fn all_zero(t: &[u8]) -> bool
    ensures { result ≡ all_zero t.now }
{
    let mut zero = true;
    for b in t {
        if *b != 0 {
            zero = false;
        }
    }
    zero
}

// Some element of s is x, as `contains` says it. No early exit, so that the loop is made of vector instructions: `contains` tests by groups
// and takes half as long again on 64 pixels, and seven times as long on 16 bytes.
pub fn holds<T: Copy + PartialEq>(s: &[T], x: T) -> bool
    ensures { result ≡ list_any (λ y. T.eq y x) s.now }
{
    let mut found = false;
    for y in s {
        if *y == x {
            found = true;
        }
    }
    found
}

// Zeros in every place.
pub fn clear(out: &mut [u32])
    ensures { out.new ≡ zeros (length out.old) }
{
    out.fill(0);
}

// v in the bytes of t, least significant first.
pub fn put_le(t: &mut [u8], v: u32)
    ensures { t.new ≡ little_bytes (length t.old) v }
{
    let mut x = v;
    for b in t.iter_mut() {
        *b = (x % 256) as u8;
        x /= 256;
    }
}

// v as the one entry from byte `at` on, if t reaches to its end.
pub fn put_entry(t: &mut [u8], w: Width, at: usize, v: u32)
    ensures { t.new ≡ if◌then◌else◌ (nat_le (at + width_bytes w) (length t.old)) (over at (table_of (width_bytes w) (v ∷ [])) t.old) t.old }
{
    let each = layout::width_bytes(w);
    let n = t.len();
    if n < each {
        return;
    }
    if n - each < at {
        return;
    }
    put_le(&mut t[at..at + each], v);
}

// The values, each less base and modulo 2^32, as entries at the front of out, if it has room for them.
pub fn store_less(values: &[u32], base: u32, w: Width, out: &mut [u8]) -> bool
    ensures value { result ≡ nat_le (length values.now * width_bytes w) (length out.old) }
    ensures out_after { out.new ≡ if◌then◌else◌ (nat_le (length values.now * width_bytes w) (length out.old)) (table_of (width_bytes w) (map (less_wrapped base) values.now) ++ drop (length values.now * width_bytes w) out.old) out.old }
{
    let each = layout::width_bytes(w);
    if out.len() < values.len() * each {
        return false;
    }
    for (i, v) in values.iter().enumerate() {
        let at = i * each;
        put_le(&mut out[at..at + each], v.wrapping_sub(base));
    }
    true
}

// The values as entries at the front of out, if it has room for them.
pub fn store(values: &[u32], w: Width, out: &mut [u8]) -> bool
    ensures value { result ≡ nat_le (length values.now * width_bytes w) (length out.old) }
    ensures out_after { out.new ≡ if◌then◌else◌ (nat_le (length values.now * width_bytes w) (length out.old)) (table_of (width_bytes w) values.now ++ drop (length values.now * width_bytes w) out.old) out.old }
{
    store_less(values, 0, w, out)
}

// The values p to e as entries, into their places.
fn store_part(values: &[u32], w: Width, p: usize, e: usize, out: &mut [u8])
    requires { (p ≤ e) × (e ≤ length values.now) × (length out.old ≡ length values.now * width_bytes w) }
    ensures { out.new ≡ with_part (p * width_bytes w) (e * width_bytes w) (table_of (width_bytes w) values.now) out.old }
{
    let each = layout::width_bytes(w);
    let a = p * each;
    let b = e * each;
    store(&values[p..e], w, &mut out[a..b]);
}

// The two halves side by side, 256 entries of each in turn.
fn store_both(values: &[u32], w: Width, out: &mut [u8])
    requires { length out.old ≡ length values.now * width_bytes w }
    ensures { out.new ≡ table_of (width_bytes w) values.now }
{
    let n = values.len();
    let half = n / 2;
    for block in 0..half / 256 {
        let p = block * 256;
        let e = p + 256;
        store_part(values, w, p, e, out);
        store_part(values, w, half + p, half + e, out);
    }
    let p = half - half % 256;
    store_part(values, w, p, half, out);
    store_part(values, w, half + p, n, out);
}

// What store does, in two streams.
pub fn store_halves(values: &[u32], w: Width, out: &mut [u8]) -> bool
    ensures value { result ≡ nat_le (length values.now * width_bytes w) (length out.old) }
    ensures out_after { out.new ≡ if◌then◌else◌ (nat_le (length values.now * width_bytes w) (length out.old)) (table_of (width_bytes w) values.now ++ drop (length values.now * width_bytes w) out.old) out.old }
{
    let end = values.len() * layout::width_bytes(w);
    if out.len() < end {
        return false;
    }
    store_both(values, w, &mut out[..end]);
    true
}

// The byte in every place.
pub fn fill(out: &mut [u8], byte: u8)
    ensures { out.new ≡ replicate (length out.old) byte }
{
    out.fill(byte);
}
