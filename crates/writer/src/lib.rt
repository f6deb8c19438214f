// Writing a frame of FORMAT 100.
#![tactic(auto)]

ghost use Rattle.std.specs.Prelude.{◌≡◌, ℕ, ◌+◌, ◌-◌, ◌*◌, ◌^◌, ◌<◌, ◌≤◌, Bool, true, false, [], ◌∷◌, ◌++◌, map, length, take, drop, nat_le, if◌then◌else◌, Ok};
ghost use Rattle.lists.specs.Bytes.{zeros, held_bytes, over};
ghost use Rattle.layout.specs.Layout.{table_bytes};
ghost use Rattle.layout.specs.Form.{width_bytes, entry_bytes, underflow_bytes};
ghost use Rattle.layout.specs.declared.Width.TheVariants.{One, Two, Four};
ghost use Rattle.table.specs.Writing.{table_of, less_wrapped};
ghost use Rattle.writer.specs.Storing.{under_entries, at_most65535, stored_for};
ghost use Rattle.pixel_counts.specs.Counts.{is_underflow, counts_of, counts_for, Answers};
ghost use Rattle.lists.specs.Only.{only};
ghost use Rattle.header_text.specs.Text.{relined};
ghost use Rattle.writer.specs.Frame.{body_bytes, frame_length, frame_bytes, stored_counts};
ghost use Rattle.writer.specs.Blocks.{less, capped, used_base, is_plain, Room, ValuesRoom, put_block, put_values, places_after, places_past, places_by, places_for, given_baseline, tables_baseline, Sized, Without, lowest_plain, highest_plain, plain_range, is_outside, Ready, with_body};
ghost use Rattle.writer.specs.Writer.{underflow_too_large, base_for, line_base, base_answer, made_of, made_with, made_as, made_from, answer_of, output_of, write_answer, write_bytes};
ghost use Rattle.header.specs.Body.{baseline_of};
ghost use Rattle.header.specs.Header.{header_of};

use header_text::Counts;
use layout::{EntryWidth, Form, Header, Tables, Underflow, Underflows, Width};
use refusal::Refusal;

// The pixels from low to low + span.
#[derive(Clone, Copy)]
struct Range {
    low: u32,
    span: u32,
}

// Where the next stored values and entries go.
#[derive(Clone, Copy)]
struct Places {
    image: usize,
    under: usize,
    two: usize,
    four: usize,
}

// The numbers that pass, at the front of out. Each is stored, and the place moves on behind those that stay.
fn gather<F: Fn(u32) -> bool>(s: &[u32], passes: F, out: &mut [u32]) -> usize
    requires room { length s.now ≤ length out.old }
    requires callable { F.IsAlwaysCallable passes }
    ensures { (p : ℕ → Bool) → Answers p (F.post passes) → (result ≡ length (only p s.now)) × (take result out.new ≡ only p s.now) }
{
    let mut k: usize = 0;
    for &v in s {
        out[k] = v;
        k += usize::from(passes(v));
    }
    k
}

// The numbers that are at most limit, at the front of out.
fn gather_at_most(s: &[u32], limit: u32, out: &mut [u32]) -> usize
    requires { length s.now ≤ length out.old }
    ensures value { result ≡ length (only (is_underflow limit) s.now) }
    ensures out_after { take result out.new ≡ only (is_underflow limit) s.now }
{
    gather(s, |v| v <= limit, out)
}

// The numbers that are limit or more, at the front of out.
fn gather_from(s: &[u32], limit: u32, out: &mut [u32]) -> usize
    requires { length s.now ≤ length out.old }
    ensures value { result ≡ length (only (nat_le limit) s.now) }
    ensures out_after { take result out.new ≡ only (nat_le limit) s.now }
{
    gather(s, |v| limit <= v, out)
}

// The pixels less the baseline. The answer: how many underflow.
fn lower(s: &[u32], base: u32, out: &mut [u32]) -> u32
    requires { (length s.now ≡ length out.old) × (length s.now < 2 ^ 32) }
    ensures value { result ≡ length (only (is_underflow base) s.now) }
    ensures out_after { out.new ≡ map (less base) s.now }
{
    let mut k: u32 = 0;
    for (i, &v) in s.iter().enumerate() {
        out[i] = v.saturating_sub(base);
        k += u32::from(v <= base);
    }
    k
}

// Every number at most limit.
fn cap(s: &mut [u32], limit: u32)
    ensures { s.new ≡ map (capped limit) s.old }
{
    for v in s.iter_mut() {
        *v = (*v).min(limit);
    }
}

// The numbers at most limit each. The answer: how many are limit or more. It is not one function with lower: that would take two closures.
fn cap_into(s: &[u32], limit: u32, out: &mut [u32]) -> u32
    requires { (length s.now ≡ length out.old) × (length s.now < 2 ^ 32) }
    ensures value { result ≡ length (only (nat_le limit) s.now) }
    ensures out_after { out.new ≡ map (capped limit) s.now }
{
    let mut k: u32 = 0;
    for (i, &v) in s.iter().enumerate() {
        out[i] = v.min(limit);
        k += u32::from(limit <= v);
    }
    k
}

// The values as entries in the bytes of out from `at` on.
fn put(values: &[u32], w: Width, out: &mut [u8], at: usize)
    requires { at + length values.now * width_bytes w ≤ length out.old }
    ensures { out.new ≡ over at (table_of (width_bytes w) values.now) out.old }
{
    let each = layout::width_bytes(w);
    let e = at + values.len() * each;
    table::store(values, w, &mut out[at..e]);
}

// The k underflow entries of a block, gathered in `found`. The answer: where the next go. The three functions for a block's entries stay
// apart: each writes its width at the call, so that each has a loop of its own, and the two-byte entries are capped between.
fn put_underflows(
    block: &[u32],
    e: EntryWidth,
    base: u32,
    k: u32,
    found: &mut [u32; 64],
    out: &mut [u8],
    at: usize,
) -> usize
    requires { (length block.now ≤ 64) × (k ≡ length (only (is_underflow base) block.now)) × (at + length (only (is_underflow base) block.now) * entry_bytes e ≤ length out.old) }
    ensures value { result ≡ at + length (only (is_underflow base) block.now) * entry_bytes e }
    ensures out_after { out.new ≡ over at (table_of (entry_bytes e) (only (is_underflow base) block.now)) out.old }
{
    if k == 0 {
        return at;
    }
    let n = gather_at_most(block, base, found);
    match e {
        EntryWidth::One => {
            put(&found[..n], Width::One, out, at);
            at + n
        }
        EntryWidth::Two => {
            put(&found[..n], Width::Two, out, at);
            at + n * 2
        }
    }
}

// Two-byte entries, at most 65535 each.
fn put_capped(values: &mut [u32], out: &mut [u8], at: usize)
    requires { at + length values.old * 2 ≤ length out.old }
    ensures { out.new ≡ over at (table_of 2 (map at_most65535 values.old)) out.old }
{
    cap(values, 65535);
    put(values, Width::Two, out, at);
}

// The k two-byte entries of a block of width 1.
fn put_two_byte(low: &[u32], k: u32, found: &mut [u32; 64], out: &mut [u8], at: usize) -> usize
    requires { (length low.now ≤ 64) × (k ≡ length (only (nat_le 255) low.now)) × (at + length (map at_most65535 (only (nat_le 255) low.now)) * 2 ≤ length out.old) }
    ensures value { result ≡ at + length (map at_most65535 (only (nat_le 255) low.now)) * 2 }
    ensures out_after { out.new ≡ over at (table_of 2 (map at_most65535 (only (nat_le 255) low.now))) out.old }
{
    if k == 0 {
        return at;
    }
    let n = gather_from(low, 255, found);
    put_capped(&mut found[..n], out, at);
    at + n * 2
}

// The k four-byte entries of a block of width 1 or 2.
fn put_four_byte(low: &[u32], k: u32, found: &mut [u32; 64], out: &mut [u8], at: usize) -> usize
    requires { (length low.now ≤ 64) × (k ≡ length (only (nat_le 65535) low.now)) × (at + length (only (nat_le 65535) low.now) * 4 ≤ length out.old) }
    ensures value { result ≡ at + length (only (nat_le 65535) low.now) * 4 }
    ensures out_after { out.new ≡ over at (table_of 4 (only (nat_le 65535) low.now)) out.old }
{
    if k == 0 {
        return at;
    }
    let n = gather_from(low, 65535, found);
    put(&found[..n], Width::Four, out, at);
    at + n * 4
}

// The values of a block in width 1, with their entries. `caps` and `found` are room for its numbers.
fn store_one(
    low: &[u32],
    caps: &mut [u32; 64],
    found: &mut [u32; 64],
    out: &mut [u8],
    at: Places,
) -> Places
    requires { (length low.now ≤ 64) × ValuesRoom One low.now at (length out.old) }
    ensures value { result ≡ places_past One low.now at }
    ensures out_after { out.new ≡ put_values One low.now at out.old }
{
    let image = at.image + low.len();
    let caps = &mut caps[..low.len()];
    let k = cap_into(low, 255, caps);
    let two = put_two_byte(low, k, found, out, at.two);
    let large = pixel_counts::count_above(low, k, 65535);
    let four = put_four_byte(low, large, found, out, at.four);
    put(caps, Width::One, out, at.image);
    Places {
        image,
        two,
        four,
        ..at
    }
}

// The same in width 2.
fn store_two(
    low: &[u32],
    caps: &mut [u32; 64],
    found: &mut [u32; 64],
    out: &mut [u8],
    at: Places,
) -> Places
    requires { (length low.now ≤ 64) × ValuesRoom Two low.now at (length out.old) }
    ensures value { result ≡ places_past Two low.now at }
    ensures out_after { out.new ≡ put_values Two low.now at out.old }
{
    let image = at.image + low.len() * 2;
    let caps = &mut caps[..low.len()];
    let k = cap_into(low, 65535, caps);
    let four = put_four_byte(low, k, found, out, at.four);
    put(caps, Width::Two, out, at.image);
    Places { image, four, ..at }
}

// The same in width 4, where no value has an entry.
fn store_four(low: &[u32], out: &mut [u8], at: Places) -> Places
    requires { ValuesRoom Four low.now at (length out.old) }
    ensures value { result ≡ places_past Four low.now at }
    ensures out_after { out.new ≡ put_values Four low.now at out.old }
{
    let image = at.image + low.len() * 4;
    put(low, Width::Four, out, at.image);
    Places { image, ..at }
}

// The values of a block, each with a loop of its own width.
fn store_values(
    low: &[u32],
    w: Width,
    caps: &mut [u32; 64],
    found: &mut [u32; 64],
    out: &mut [u8],
    at: Places,
) -> Places
    requires { (length low.now ≤ 64) × ValuesRoom w low.now at (length out.old) }
    ensures value { result ≡ places_past w low.now at }
    ensures out_after { out.new ≡ put_values w low.now at out.old }
{
    match w {
        Width::One => store_one(low, caps, found, out, at),
        Width::Two => store_two(low, caps, found, out, at),
        Width::Four => store_four(low, out, at),
    }
}

// The least pixel that a kind stores with no entry.
fn lowest_plain(u: Underflow, base: u32) -> u32
    requires { base ≤ 65535 }
    ensures { result ≡ lowest_plain u base }
{
    match u {
        Underflow::None => 0,
        Underflow::Subtracted(_) => base + 1,
    }
}

// The largest pixel that a width stores with no entry.
fn highest_plain(w: Width, base: u32) -> u32
    requires { base ≤ 65535 }
    ensures { result ≡ highest_plain w base }
{
    match w {
        Width::One => base + 254,
        Width::Two => base + 65534,
        Width::Four => 4294967295,
    }
}

// One compare: a pixel below the range wraps to more than its span.
fn is_outside(v: u32, k: Range) -> bool
    requires { k.low + k.span < 2 ^ 32 }
    ensures { result ≡ is_outside k v }
{
    k.span < v.wrapping_sub(k.low)
}

// Whether some pixel is outside. Every one is looked at, so that the loop is made of vector instructions.
fn any_outside(s: &[u32], k: Range) -> bool
    requires { k.low + k.span < 2 ^ 32 }
    ensures { result ≡ false → Without (is_outside k) s.now 0 (length s.now) }
{
    let mut found = false;
    for v in s {
        found |= is_outside(*v, k);
    }
    found
}

// The first pixel from p on that is outside, or the end.
fn first_outside(s: &[u32], p: usize, k: Range) -> usize
    requires { (p ≤ length s.now) × (k.low + k.span < 2 ^ 32) }
    ensures { Without (is_outside k) s.now p result }
{
    for (i, v) in s[p..].iter().enumerate() {
        if is_outside(*v, k) {
            return p + i;
        }
    }
    s.len()
}

// The same, 16 pixels at a time as long as none of them is.
fn next_outside(s: &[u32], p: usize, k: Range) -> usize
    requires { (p ≤ length s.now) × (k.low + k.span < 2 ^ 32) }
    ensures { Without (is_outside k) s.now p result }
{
    let (blocks, _) = s[p..].as_chunks::<16>();
    for (i, block) in blocks.iter().enumerate() {
        if any_outside(block, k) {
            return first_outside(s, p + i * 16, k);
        }
    }
    first_outside(s, p + blocks.len() * 16, k)
}

// A run less the baseline. A width written at each call, so that each has a loop of its own.
fn put_run(run: &[u32], w: Width, base: u32, out: &mut [u8], at: usize)
    requires { at + length run.now * width_bytes w ≤ length out.old }
    ensures { out.new ≡ over at (table_of (width_bytes w) (map (less_wrapped base) run.now)) out.old }
{
    let e = at + run.len() * layout::width_bytes(w);
    match w {
        Width::One => {
            table::store_less(run, base, Width::One, &mut out[at..e]);
        }
        Width::Two => {
            table::store_less(run, base, Width::Two, &mut out[at..e]);
        }
        Width::Four => {
            table::store_less(run, base, Width::Four, &mut out[at..e]);
        }
    }
}

// An underflow entry. The answer: where the next goes.
fn put_underflow(v: u32, e: EntryWidth, out: &mut [u8], at: usize) -> usize
    requires { at + entry_bytes e ≤ length out.old }
    ensures value { result ≡ at + entry_bytes e }
    ensures out_after { out.new ≡ over at (table_of (entry_bytes e) (v ∷ [])) out.old }
{
    match e {
        EntryWidth::One => {
            table::put_entry(out, Width::One, at, v);
            at + 1
        }
        EntryWidth::Two => {
            table::put_entry(out, Width::Two, at, v);
            at + 2
        }
    }
}

// A value in width 1, with its entries. The widths stay apart: they have different limits and different entries.
fn put_value1(x: u32, out: &mut [u8], at: Places) -> Places
    requires { ValuesRoom One (x ∷ []) at (length out.old) }
    ensures value { result ≡ places_past One (x ∷ []) at }
    ensures out_after { out.new ≡ put_values One (x ∷ []) at out.old }
{
    let image = at.image + 1;
    if x < 255 {
        table::put_entry(out, Width::One, at.image, x);
        return Places { image, ..at };
    }
    table::put_entry(out, Width::Two, at.two, x.min(65535));
    let two = at.two + 2;
    if x < 65535 {
        table::put_entry(out, Width::One, at.image, 255);
        return Places { image, two, ..at };
    }
    table::put_entry(out, Width::Four, at.four, x);
    table::put_entry(out, Width::One, at.image, 255);
    Places {
        image,
        two,
        four: at.four + 4,
        ..at
    }
}

// The same in width 2.
fn put_value2(x: u32, out: &mut [u8], at: Places) -> Places
    requires { ValuesRoom Two (x ∷ []) at (length out.old) }
    ensures value { result ≡ places_past Two (x ∷ []) at }
    ensures out_after { out.new ≡ put_values Two (x ∷ []) at out.old }
{
    let image = at.image + 2;
    if x < 65535 {
        table::put_entry(out, Width::Two, at.image, x);
        return Places { image, ..at };
    }
    table::put_entry(out, Width::Four, at.four, x);
    table::put_entry(out, Width::Two, at.image, 65535);
    Places {
        image,
        four: at.four + 4,
        ..at
    }
}

// The same in width 4, where no value has an entry.
fn put_value4(x: u32, out: &mut [u8], at: Places) -> Places
    requires { ValuesRoom Four (x ∷ []) at (length out.old) }
    ensures value { result ≡ places_past Four (x ∷ []) at }
    ensures out_after { out.new ≡ put_values Four (x ∷ []) at out.old }
{
    table::put_entry(out, Width::Four, at.image, x);
    Places {
        image: at.image + 4,
        ..at
    }
}

// A value, with its entries.
fn put_value(x: u32, w: Width, out: &mut [u8], at: Places) -> Places
    requires { ValuesRoom w (x ∷ []) at (length out.old) }
    ensures value { result ≡ places_past w (x ∷ []) at }
    ensures out_after { out.new ≡ put_values w (x ∷ []) at out.old }
{
    match w {
        Width::One => put_value1(x, out, at),
        Width::Two => put_value2(x, out, at),
        Width::Four => put_value4(x, out, at),
    }
}

// The end of the pixels that are looked at for a run from p on: 512 of them, or what is left.
fn run_limit(p: usize, n: usize) -> usize
    requires { p ≤ n }
    ensures { (p ≤ result) × (result ≤ n) }
{
    if 512 < n - p { p + 512 } else { n }
}

// Entries for one pixel in 16 at most.
fn has_few(c: Counts, n: usize) -> bool {
    c.under as usize + c.two as usize + c.four as usize <= n / 16
}

// The header, copied but for two lines.
fn put_header(header: &[u8], form: Form, c: Counts, out: &mut [u8])
    requires { (length header.now ≡ length out.old) × (3200 ≤ length header.now) }
    ensures { out.new ≡ relined form c header.now }
{
    out.copy_from_slice(header);
    header_text::rewrite(out, form, c);
}

// The bytes of a table with its padding.
fn padded_bytes(w: Width, n: u32) -> usize
    ensures value { result ≡ table_bytes (width_bytes w) n }
    ensures upper_bound { result ≤ 2 ^ 35 }
{
    layout::table_bytes(w, n)
}

// Where the parts of a frame of n pixels start.
fn places_for(start: usize, n: usize, form: Form, c: Counts) -> Places
    requires { (start ≤ 2 ^ 32) × (n ≤ 2 ^ 32) }
    ensures value { result ≡ places_by start n form c }
    ensures four_bound { result.four ≤ 2 ^ 40 }
{
    let under = start + n * layout::width_bytes(form.width);
    let two = under + layout::underflow_table_bytes(form.underflow, c.under);
    let four = two + padded_bytes(Width::Two, c.two);
    Places {
        image: start,
        under,
        two,
        four,
    }
}

// 17: some underflow entry is too large for its width.
fn underflow_too_large(u: Underflow, pixels: &[u32], base: u32) -> bool
    ensures { result ≡ underflow_too_large u (under_entries u base pixels.now) }
{
    match u {
        Underflow::Subtracted(EntryWidth::One) => pixel_counts::any_large(pixels, base),
        Underflow::Subtracted(EntryWidth::Two) | Underflow::None => false,
    }
}

// Line 79's baseline where the header has -1: everything wrong with it is 16.
fn line_base(header: &[u8]) -> Option<u32>
    ensures { result ≡ base_answer (line_base (baseline_of header.now)) }
{
    header::baseline_of(header).ok().filter(|b| *b <= 65535)
}

// The baseline that the header gives to the kind.
pub fn base_for(header: &[u8], h: Underflows, u: Underflow) -> Option<u32>
    ensures { result ≡ base_answer (base_for header.now h u) }
{
    match (u, h) {
        (Underflow::None, _) => Some(0),
        (_, Underflows::Unused) => line_base(header),
        (_, Underflows::NoWidth { baseline } | Underflows::Counted { baseline, .. }) => Some(
            baseline,
        ),
    }
}

// Width 4 with kind none: the pixels are the image, and no table has an entry.
fn is_plain(form: Form) -> bool
    ensures { result ≡ is_plain form.width form.underflow }
{
    matches!(
        form,
        Form {
            width: Width::Four,
            underflow: Underflow::None
        }
    )
}

// How pixels are stored: the form, and the baseline that its kind subtracts.
#[derive(Clone, Copy)]
struct Storage {
    form: Form,
    base: u32,
}

impl Storage {
    // A block: its entries and its stored values, each at its place. `low`, `caps` and `found` are room for its numbers; they are no struct,
    // since no proof is generated where two fields behind a reference are lent at once.
    fn store_block(
        self,
        block: &[u32],
        low: &mut [u32; 64],
        caps: &mut [u32; 64],
        found: &mut [u32; 64],
        out: &mut [u8],
        at: Places,
    ) -> Places
        requires { (length block.now ≤ 64) × (self.base ≡ used_base self.form.underflow self.base) × Room self.form (stored_for self.form self.base block.now) at (length out.old) }
        ensures value { result ≡ places_after self.form (stored_for self.form self.base block.now) at }
        ensures out_after { out.new ≡ put_block self.form (stored_for self.form self.base block.now) at out.old }
    {
        let w = self.form.width;
        let Underflow::Subtracted(e) = self.form.underflow else {
            return store_values(block, w, caps, found, out, at);
        };
        let low = &mut low[..block.len()];
        let k = lower(block, self.base, low);
        let under = put_underflows(block, e, self.base, k, found, out, at.under);
        let t = Places { under, ..at };
        store_values(low, w, caps, found, out, t)
    }

    // All blocks, in a buffer that is zero behind the image.
    fn store_blocks(self, pixels: &[u32], out: &mut [u8], at: Places)
        requires { Ready self pixels.now out.old at }
        ensures { out.new ≡ with_body self pixels.now out.old at }
    {
        let mut low = [0u32; 64];
        let mut caps = [0u32; 64];
        let mut found = [0u32; 64];
        let mut t = at;
        let n = pixels.len();
        // One call for the blocks and for what is left: with as_chunks, which takes two, a frame of many entries took 1.6% more instructions.
        for i in 0..n.div_ceil(64) {
            let p = i * 64;
            let end = p + (n - p).min(64);
            let block = &pixels[p..end];
            t = self.store_block(block, &mut low, &mut caps, &mut found, out, t);
        }
    }

    // The pixels that a form stores with no entry.
    fn plain_range(self) -> Range
        requires { self.base ≤ 65535 }
        ensures { result ≡ plain_range self.form self.base }
    {
        let low = lowest_plain(self.form.underflow, self.base);
        Range {
            low,
            span: highest_plain(self.form.width, self.base) - low,
        }
    }

    // A run of pixels that need no entry.
    fn put_plain(self, run: &[u32], out: &mut [u8], at: Places) -> Places
        requires { (only (is_outside (plain_range self.form self.base)) run.now ≡ []) × (self.base ≡ used_base self.form.underflow self.base) × (self.base ≤ 65535) × Room self.form (stored_for self.form self.base run.now) at (length out.old) }
        ensures value { result ≡ places_after self.form (stored_for self.form self.base run.now) at }
        ensures out_after { out.new ≡ put_block self.form (stored_for self.form self.base run.now) at out.old }
    {
        let image = at.image + run.len() * layout::width_bytes(self.form.width);
        put_run(run, self.form.width, self.base, out, at.image);
        Places { image, ..at }
    }

    // One pixel: its entries and its stored value.
    fn put_pixel(self, v: u32, out: &mut [u8], at: Places) -> Places
        requires { (self.base ≡ used_base self.form.underflow self.base) × Room self.form (stored_for self.form self.base (v ∷ [])) at (length out.old) }
        ensures value { result ≡ places_after self.form (stored_for self.form self.base (v ∷ [])) at }
        ensures out_after { out.new ≡ put_block self.form (stored_for self.form self.base (v ∷ [])) at out.old }
    {
        let u = self.form.underflow;
        let w = self.form.width;
        let Underflow::Subtracted(e) = u else {
            return put_value(v, w, out, at);
        };
        if self.base < v {
            return put_value(v - self.base, w, out, at);
        }
        let under = put_underflow(v, e, out, at.under);
        let t = Places { under, ..at };
        put_value(0, w, out, t)
    }

    // All pixels: runs with no entry, and each other pixel by itself. A run ends after 512 pixels at the latest, so that it is still in the
    // cache when it is stored. Its length decides where the next begins, so this is a loop over no iterator.
    fn store_runs(self, pixels: &[u32], out: &mut [u8], at: Places)
        requires { Ready self pixels.now out.old at }
        ensures { out.new ≡ with_body self pixels.now out.old at }
    {
        let k = self.plain_range();
        let n = pixels.len();
        let mut t = at;
        let mut p = 0;
        'runs: loop {
            let end = run_limit(p, n);
            let q = next_outside(&pixels[..end], p, k);
            t = self.put_plain(&pixels[p..q], out, t);
            if q == n {
                break;
            }
            t = self.put_pixel(pixels[q], out, t);
            p = q + 1;
        }
    }

    // The counts of all pixels. Width 4 with kind none has no entries.
    fn count_pixels(self, pixels: &[u32]) -> Counts
        requires { (length pixels.now ≤ 16777216) × (self.base ≤ 65535) }
        ensures { result ≡ counts_for self.form (counts_of self.base pixels.now) }
    {
        if is_plain(self.form) {
            return pixel_counts::no_counts();
        }
        pixel_counts::count(pixels, self.form, self.base as u16)
    }

    // All pixels, in a buffer that is zero behind the image.
    fn store_pixels(self, pixels: &[u32], c: Counts, out: &mut [u8], at: Places)
        requires { Ready self pixels.now out.old at }
        ensures { out.new ≡ with_body self pixels.now out.old at }
    {
        if is_plain(self.form) {
            let from = at.image;
            let end = from + pixels.len() * 4;
            table::store_halves(pixels, Width::Four, &mut out[from..end]);
            return;
        }
        if has_few(c, pixels.len()) {
            self.store_runs(pixels, out, at);
            return;
        }
        self.store_blocks(pixels, out, at);
    }

    // The frame in a buffer that holds it, and zeros behind it.
    fn store_frame(self, header: &[u8], pixels: &[u32], c: Counts, at: Places, out: &mut [u8])
        requires { (3200 ≤ length header.now) × (self.base ≡ used_base self.form.underflow self.base) × (c ≡ stored_counts (stored_for self.form self.base pixels.now)) × (at ≡ places_for (length header.now) self.form (stored_for self.form self.base pixels.now)) × (frame_length (length header.now) self.form (stored_for self.form self.base pixels.now) ≤ length out.old) × (self.base ≤ 65535) }
        ensures { out.new ≡ held_bytes (length out.old) (frame_bytes header.now self.form (stored_for self.form self.base pixels.now)) }
    {
        let start = at.image;
        let end = at.under;
        table::fill(&mut out[end..], 0);
        self.store_pixels(pixels, c, out, at);
        put_header(header, self.form, c, &mut out[..start]);
    }

    // 17, 18, or the frame of a form with its baseline.
    fn write_form(self, header: &[u8], pixels: &[u32], out: &mut [u8]) -> Result<u64, Refusal>
        requires { (Sized header.now pixels.now self.base) × (self.base ≡ used_base self.form.underflow self.base) }
        ensures value { result ≡ answer_of (length out.old) (made_of header.now self.form (stored_for self.form self.base pixels.now)) }
        ensures out_after { out.new ≡ output_of out.old (made_of header.now self.form (stored_for self.form self.base pixels.now)) }
    {
        if underflow_too_large(self.form.underflow, pixels, self.base) {
            return Err(Refusal::UnderflowTooLarge);
        }
        let c = self.count_pixels(pixels);
        let at = places_for(header.len(), pixels.len(), self.form, c);
        let end = at.four + padded_bytes(Width::Four, c.four);
        if out.len() < end {
            return Err(Refusal::OutputShort);
        }
        self.store_frame(header, pixels, c, at, out);
        Ok(end as u64)
    }
}

// 16 where the kind wants a baseline that the header does not give.
fn write_listed(
    header: &[u8],
    h: Underflows,
    form: Form,
    pixels: &[u32],
    out: &mut [u8],
) -> Result<u64, Refusal>
    requires { Sized header.now pixels.now (given_baseline h) }
    ensures value { result ≡ answer_of (length out.old) (made_with header.now form pixels.now (base_for header.now h form.underflow)) }
    ensures out_after { out.new ≡ output_of out.old (made_with header.now form pixels.now (base_for header.now h form.underflow)) }
{
    let base = base_for(header, h, form.underflow).ok_or(Refusal::FormUnavailable)?;
    Storage { form, base }.write_form(header, pixels, out)
}

// 16 for FORMAT 86 and a form that is not listed.
fn write_as(
    header: &[u8],
    tables: Tables,
    asked: Option<Form>,
    pixels: &[u32],
    out: &mut [u8],
) -> Result<u64, Refusal>
    requires { Sized header.now pixels.now (tables_baseline tables) }
    ensures value { result ≡ answer_of (length out.old) (made_as header.now tables asked pixels.now) }
    ensures out_after { out.new ≡ output_of out.old (made_as header.now tables asked pixels.now) }
{
    let Tables::Format100(t) = tables else {
        return Err(Refusal::FormUnavailable);
    };
    let form = asked.ok_or(Refusal::FormUnavailable)?;
    write_listed(header, t.underflows, form, pixels, out)
}

// The frame from an accepted header's own bytes, for its N pixels.
fn write_accepted(
    given: &[u8],
    h: Header,
    pixels: &[u32],
    asked: Option<Form>,
    out: &mut [u8],
) -> Result<u64, Refusal>
    requires { header_of given.now ≡ Ok h }
    ensures value { result ≡ answer_of (length out.old) (made_from given.now asked pixels.now h) }
    ensures out_after { out.new ≡ output_of out.old (made_from given.now asked pixels.now h) }
{
    let n = layout::pixel_count(h.image);
    if pixels.len() < n {
        return Err(Refusal::PixelArrayShort);
    }
    let start = h.image.start as usize;
    write_as(&given[..start], h.tables, asked, &pixels[..n], out)
}

// The frame of the header's N pixels in the form asked for, at the start of out and zeros behind it.
pub fn write(
    header: &[u8],
    pixels: &[u32],
    asked: Option<Form>,
    out: &mut [u8],
) -> Result<u64, Refusal>
    ensures value { result ≡ write_answer header.now asked pixels.now (length out.old) }
    ensures out_after { out.new ≡ write_bytes header.now asked pixels.now out.old }
{
    let h = header::read_header(header)?;
    write_accepted(header, h, pixels, asked, out)
}
