// FORMAT 100: from the bytes of an image and its tables to pixels, in one pass over blocks of pixels.
#![tactic(auto)]

ghost use Rattle.std.specs.Prelude.{◌≡◌, ◌+◌, ◌*◌, ◌^◌, ◌<◌, ◌≤◌, true, false, ◌&&◌, ◌||◌, [], ◌∷◌, map, length, drop, ◌==◌, nat_lt, slice_index, if◌then◌else◌, None, Some};
ghost use Rattle.layout.specs.Form.{width_bytes, entry_bytes};
ghost use Rattle.layout.specs.Layout.{pixel_count, binary_end};
ghost use Rattle.layout.specs.declared.Width.TheVariants.{One, Four};
ghost use Rattle.table.specs.Table.{whole_entries, entries};
ghost use Rattle.expand.specs.Steps.{fill_by, replace, count, sum_too_large, any_too_large};
ghost use Rattle.expand.specs.Expand.{binary_answer, binary_pixels, first_pixels, parts_whole};
ghost use Rattle.expand.specs.Places.{extent_of, places_of};
ghost use Rattle.expand.specs.Blocks.{stored, parts_of, wrapped, Replaced, Lifted, Stepped, Whole, Unmarked, Passed, used_baseline, untaken, step_of, gap_zero, steps_answer, steps_pixels, frame_answer};

use layout::{BinaryTables, EntryWidth, Image, Underflows, Width};
use refusal::Refusal;

// The next entries of the two-byte and the four-byte table.
#[derive(Clone, Copy)]
struct Cursors {
    two: usize,
    four: usize,
}

// The next underflow entry, and whether a baseline sum was too large.
#[derive(Clone, Copy)]
struct Under {
    next: usize,
    over: bool,
}

// All that a block hands on to the next.
#[derive(Clone, Copy)]
struct Taken {
    two: usize,
    four: usize,
    under: usize,
    over: bool,
}

// Step c: whether it applies, its entries and the baseline. Numbers beside the flag, not an Option of them: the blocks are specified by
// the entries' width and the baseline in each case, 1 and 0 where step c does not apply.
#[derive(Clone, Copy)]
struct StepC {
    applies: bool,
    width: EntryWidth,
    count: u32,
    baseline: u32,
}

// The entries of the three tables, without padding.
#[derive(Clone, Copy)]
struct Tables<'a> {
    two: &'a [u8],
    four: &'a [u8],
    under: &'a [u8],
}

// Where a table lies; its entries end where its padding starts.
#[derive(Clone, Copy)]
pub struct Extent {
    pub start: usize,
    pub padding: usize,
    pub end: usize,
}

// Where the image starts and the tables lie.
#[derive(Clone, Copy)]
pub struct Places {
    pub image: usize,
    pub under: Extent,
    pub two: Extent,
    pub four: Extent,
}

// No entry taken, and no sum too large.
const UNTAKEN: Taken = Taken {
    two: 0,
    four: 0,
    under: 0,
    over: false,
};

// Each `mark` takes the next entry of t, from entry `from` on. The answer: the next entry's place.
fn fill_marked(pixels: &mut [u32], mark: u32, t: &[u8], w: Width, from: usize) -> usize
    requires { from + length pixels.old < 2 ^ 64 }
    ensures value { result ≡ from + count mark pixels.old }
    ensures pixels_after { pixels.new ≡ replace mark pixels.old (drop from (whole_entries (width_bytes w) t.now)) }
{
    let mut k = from;
    for v in pixels.iter_mut() {
        if *v == mark {
            *v = table::entry(t, w, k);
            k += 1;
        }
    }
    k
}

// The same, skipped where no mark stands.
fn fill_some(pixels: &mut [u32], mark: u32, t: &[u8], w: Width, from: usize) -> usize
    requires { from + length pixels.old < 2 ^ 64 }
    ensures value { result ≡ from + count mark pixels.old }
    ensures pixels_after { pixels.new ≡ replace mark pixels.old (drop from (whole_entries (width_bytes w) t.now)) }
{
    if table::holds(pixels, mark) {
        fill_marked(pixels, mark, t, w, from)
    } else {
        from
    }
}

// Steps a and b of a block of width 1. A block with no 255 has no 65535 either.
fn replace_block1(image: &[u8], two: &[u8], four: &[u8], pixels: &mut [u32], c: Cursors) -> Cursors
    requires { (length pixels.old ≤ length image.now) × (c.two + length pixels.old < 2 ^ 64) × (c.four + length pixels.old < 2 ^ 64) }
    ensures { Replaced 1 (stored (entries 1 (length pixels.old) image.now) [] (whole_entries 2 two.now) (whole_entries 4 four.now)) pixels.new c result }
{
    let n = pixels.len();
    table::load(image, Width::One, pixels);
    if table::holds(&image[..n], 255) {
        let two = fill_marked(pixels, 255, two, Width::Two, c.two);
        let four = fill_some(pixels, 65535, four, Width::Four, c.four);
        Cursors { two, four }
    } else {
        c
    }
}

// Steps a and b of a block. Each width is written at the calls, so that each loop is compiled for its width.
fn replace_block(
    image: &[u8],
    w: Width,
    two: &[u8],
    four: &[u8],
    pixels: &mut [u32],
    c: Cursors,
) -> Cursors
    requires { (length pixels.old * width_bytes w ≤ length image.now) × (c.two + length pixels.old < 2 ^ 64) × (c.four + length pixels.old < 2 ^ 64) }
    ensures { Replaced (width_bytes w) (stored (entries (width_bytes w) (length pixels.old) image.now) [] (whole_entries 2 two.now) (whole_entries 4 four.now)) pixels.new c result }
{
    match w {
        Width::One => replace_block1(image, two, four, pixels, c),
        Width::Two => {
            table::load(image, Width::Two, pixels);
            let four = fill_some(pixels, 65535, four, Width::Four, c.four);
            Cursors { two: c.two, four }
        }
        Width::Four => {
            table::load(image, Width::Four, pixels);
            c
        }
    }
}

// Step c where no zero stands: every number gains base.
fn lift(pixels: &mut [u32], base: u32)
    ensures { pixels.new ≡ map (wrapped base) pixels.old }
{
    for v in pixels.iter_mut() {
        *v = v.wrapping_add(base);
    }
}

// over, or the sum of v and base is too large
fn past(over: bool, v: u32, base: u32) -> bool
    ensures { result ≡ (over || sum_too_large base v) }
{
    if v <= 4294967295 - base { over } else { true }
}

// Some sum with base is too large.
fn any_too_large(s: &[u32], base: u32) -> bool
    ensures { result ≡ any_too_large base s.now }
{
    let mut over = false;
    for v in s {
        over = past(over, *v, base);
    }
    over
}

// Step c at one pixel: e is its entry if it takes one.
fn choose(v: u32, e: u32, base: u32) -> u32
    ensures { result ≡ if◌then◌else◌ (v == 0) e (wrapped base v) }
{
    if v == 0 { e } else { v.wrapping_add(base) }
}

// Step c: each 0 takes the next entry of t, every other number gains base. The body has no branch on the pixel.
fn lift_marked(pixels: &mut [u32], t: &[u8], w: Width, base: u32, from: usize) -> usize
    requires { from + length pixels.old < 2 ^ 64 }
    ensures value { result ≡ from + count 0 pixels.old }
    ensures pixels_after { pixels.new ≡ fill_by 0 (wrapped base) pixels.old (drop from (whole_entries (width_bytes w) t.now)) }
{
    let mut k = from;
    for v in pixels.iter_mut() {
        let e = table::entry(t, w, k);
        k += usize::from(*v == 0);
        *v = choose(*v, e, base);
    }
    k
}

// Step c of a block. Sums that are too large are looked for in a pass of their own and stored wrapped.
fn lift_block(pixels: &mut [u32], under: &[u8], c: StepC, u: Under) -> Under
    requires { u.next + length pixels.old < 2 ^ 64 }
    ensures { Lifted c.applies c.baseline pixels.old (whole_entries (entry_bytes c.width) under.now) pixels.new u result }
{
    if !c.applies {
        return u;
    }
    let base = c.baseline;
    let large = any_too_large(pixels, base);
    let over = u.over | large;
    if !table::holds(pixels, 0) {
        lift(pixels, base);
        return Under { next: u.next, over };
    }
    let width = c.width;
    match width {
        EntryWidth::One => {
            let rest = table::entries_from(under, Width::One, u.next);
            let taken = lift_marked(pixels, rest, Width::One, base, 0);
            Under {
                next: u.next + taken,
                over,
            }
        }
        EntryWidth::Two => {
            let rest = table::entries_from(under, Width::Two, u.next);
            let taken = lift_marked(pixels, rest, Width::Two, base, 0);
            Under {
                next: u.next + taken,
                over,
            }
        }
    }
}

// How many pixels are a block: few in width 1, where most blocks then need no table; many in width 4, which has no tables but the underflows.
fn block_size(w: Width) -> usize
    ensures { 1 ≤ result }
{
    match w {
        Width::One => 32,
        Width::Two => 64,
        Width::Four => 512,
    }
}

// The end of the block that starts at p. Here and in `run_end` by a choice and not by the method `min`, so that the compiler sees a block's length.
fn block_end(w: Width, p: usize, n: usize) -> usize
    requires { p < n }
    ensures { (p < result) × (result ≤ n) }
{
    let size = block_size(w);
    if size < n - p { p + size } else { n }
}

// The three steps of a block.
fn step_block(
    image: &[u8],
    w: Width,
    tables: Tables,
    c: StepC,
    pixels: &mut [u32],
    t: Taken,
) -> Taken
    requires { (length pixels.old * width_bytes w ≤ length image.now) × (t.two + length pixels.old < 2 ^ 64) × (t.four + length pixels.old < 2 ^ 64) × (t.under + length pixels.old < 2 ^ 64) }
    ensures { Stepped (width_bytes w) c.applies c.baseline (parts_of (width_bytes w) (entry_bytes c.width) (length pixels.old) image.now tables.entry.under.now tables.entry.two.now tables.entry.four.now) pixels.new t result }
{
    let k = replace_block(
        image,
        w,
        tables.two,
        tables.four,
        pixels,
        Cursors {
            two: t.two,
            four: t.four,
        },
    );
    let u = lift_block(
        pixels,
        tables.under,
        c,
        Under {
            next: t.under,
            over: t.over,
        },
    );
    Taken {
        two: k.two,
        four: k.four,
        under: u.next,
        over: u.over,
    }
}

// The three steps of all blocks. Each block's end is the next one's start: a count of blocks, whose size goes by the width, would
// need a division and two products more.
fn blocks(image: &[u8], w: Width, tables: Tables, c: StepC, pixels: &mut [u32]) -> Taken
    requires { length pixels.old * width_bytes w ≤ length image.now }
    ensures { Whole (width_bytes w) c.applies c.baseline (parts_of (width_bytes w) (entry_bytes c.width) (length pixels.old) image.now tables.entry.under.now tables.entry.two.now tables.entry.four.now) pixels.new result }
{
    let each = layout::width_bytes(w);
    let mut t = UNTAKEN;
    let mut p = 0;
    while p < pixels.len() {
        let e = block_end(w, p, pixels.len());
        let at = p * each;
        t = step_block(&image[at..], w, tables, c, &mut pixels[p..e], t);
        p = e;
    }
    t
}

// A pixel after steps a and b, and the next entries.
#[derive(Clone, Copy)]
struct ReplacedPixel {
    value: u32,
    next: Cursors,
}

// A pixel after step c, and what it hands on.
#[derive(Clone, Copy)]
struct LiftedPixel {
    value: u32,
    under: Under,
}

// A pixel after the three steps, and all that it hands on.
#[derive(Clone, Copy)]
struct SteppedPixel {
    value: u32,
    taken: Taken,
}

// Underflow entry k, and 0 past the last. Each width is written at its call.
fn under_entry(t: &[u8], e: EntryWidth, k: usize) -> u32
    ensures { result ≡ slice_index (whole_entries (entry_bytes e) t.now) k }
{
    match e {
        EntryWidth::One => table::entry(t, Width::One, k),
        EntryWidth::Two => table::entry(t, Width::Two, k),
    }
}

// Steps a and b of one stored byte.
fn replace_pixel(b: u8, two: &[u8], four: &[u8], c: Cursors) -> ReplacedPixel
    requires { (c.two + 1 < 2 ^ 64) × (c.four + 1 < 2 ^ 64) }
    ensures { Replaced 1 (stored (b ∷ []) [] (whole_entries 2 two.now) (whole_entries 4 four.now)) (result.value ∷ []) c result.next }
{
    if b != 255 {
        return ReplacedPixel {
            value: u32::from(b),
            next: c,
        };
    }
    let v = table::entry(two, Width::Two, c.two);
    if v != 65535 {
        return ReplacedPixel {
            value: v,
            next: Cursors {
                two: c.two + 1,
                four: c.four,
            },
        };
    }
    let large = table::entry(four, Width::Four, c.four);
    ReplacedPixel {
        value: large,
        next: Cursors {
            two: c.two + 1,
            four: c.four + 1,
        },
    }
}

// Step c of one pixel.
fn lift_pixel(v: u32, under: &[u8], c: StepC, u: Under) -> LiftedPixel
    requires { u.next + 1 < 2 ^ 64 }
    ensures { Lifted c.applies c.baseline (v ∷ []) (whole_entries (entry_bytes c.width) under.now) (result.value ∷ []) u result.under }
{
    if !c.applies {
        return LiftedPixel { value: v, under: u };
    }
    if v == 0 {
        let e = c.width;
        let value = under_entry(under, e, u.next);
        return LiftedPixel {
            value,
            under: Under {
                next: u.next + 1,
                over: u.over,
            },
        };
    }
    let over = past(u.over, v, c.baseline);
    let value = v.wrapping_add(c.baseline);
    LiftedPixel {
        value,
        under: Under { next: u.next, over },
    }
}

// The three steps of one stored byte.
fn step_pixel(b: u8, tables: Tables, c: StepC, t: Taken) -> SteppedPixel
    requires { (t.two + 1 < 2 ^ 64) × (t.four + 1 < 2 ^ 64) × (t.under + 1 < 2 ^ 64) }
    ensures { Stepped 1 c.applies c.baseline (stored (b ∷ []) (whole_entries (entry_bytes c.width) tables.entry.under.now) (whole_entries 2 tables.entry.two.now) (whole_entries 4 tables.entry.four.now)) (result.value ∷ []) t result.taken }
{
    let r = replace_pixel(
        b,
        tables.two,
        tables.four,
        Cursors {
            two: t.two,
            four: t.four,
        },
    );
    let k = r.next;
    let l = lift_pixel(
        r.value,
        tables.under,
        c,
        Under {
            next: t.under,
            over: t.over,
        },
    );
    let u = l.under;
    SteppedPixel {
        value: l.value,
        taken: Taken {
            two: k.two,
            four: k.four,
            under: u.next,
            over: u.over,
        },
    }
}

// Whether a stored byte takes an entry: 255, and 0 where step c applies.
fn is_mark(b: u8, applies: bool) -> bool
    ensures { result ≡ false → Unmarked applies (b ∷ []) }
{
    b == 255 || (applies && b == 0)
}

// Whether some byte takes an entry.
fn any_mark(s: &[u8], applies: bool) -> bool
    ensures { result ≡ false → Unmarked applies s.now }
{
    table::holds(s, 255) || (applies && table::holds(s, 0))
}

// The first byte from p on that takes an entry, or end.
fn first_mark(s: &[u8], p: usize, end: usize, applies: bool) -> usize
    requires { (p ≤ end) × (end ≤ length s.now) }
    ensures { Passed applies s.now p end result }
{
    for q in p..end {
        if is_mark(s[q], applies) {
            return q;
        }
    }
    end
}

// The same, 16 bytes at a time as long as none of them takes an entry.
fn next_mark(s: &[u8], p: usize, end: usize, applies: bool) -> usize
    requires { (p ≤ end) × (end ≤ length s.now) }
    ensures { Passed applies s.now p end result }
{
    for k in 0..(end - p) / 16 {
        let q = p + k * 16;
        if any_mark(&s[q..q + 16], applies) {
            return first_mark(s, q, end, applies);
        }
    }
    first_mark(s, end - (end - p) % 16, end, applies)
}

// Numbers that are bytes, each with base.
fn lift_bytes(image: &[u8], base: u32, pixels: &mut [u32])
    requires { length image.now ≡ length pixels.old }
    ensures { pixels.new ≡ map (wrapped base) image.now }
{
    for (i, v) in pixels.iter_mut().enumerate() {
        *v = u32::from(image[i]).wrapping_add(base);
    }
}

// The baseline, or 0 where step c does not apply.
fn used_baseline(c: StepC) -> u32
    ensures { result ≡ used_baseline c.applies c.baseline }
{
    if c.applies { c.baseline } else { 0 }
}

// Where a run that starts at p ends at the latest: near enough that its bytes are still in the cache when they are stored.
fn run_end(p: usize, n: usize) -> usize
    requires { p ≤ n }
    ensures { (p ≤ result) × (result ≤ n) }
{
    if 512 < n - p { p + 512 } else { n }
}

// The three steps of all pixels of width 1 where few take an entry: runs of those that take none, and each other by itself. How far a
// turn comes is the bytes', so the loop counts by itself.
fn step_runs(image: &[u8], tables: Tables, c: StepC, pixels: &mut [u32]) -> Taken
    requires { (length pixels.old ≤ length image.now) × (c.baseline ≤ 65535) }
    ensures { Whole 1 c.applies c.baseline (parts_of 1 (entry_bytes c.width) (length pixels.old) image.now tables.entry.under.now tables.entry.two.now tables.entry.four.now) pixels.new result }
{
    let base = used_baseline(c);
    let mut t = UNTAKEN;
    let n = pixels.len();
    let mut p = 0;
    loop {
        let end = run_end(p, n);
        let q = next_mark(image, p, end, c.applies);
        lift_bytes(&image[p..q], base, &mut pixels[p..q]);
        if q == n {
            break;
        }
        let x = step_pixel(image[q], tables, c, t);
        pixels[q] = x.value;
        t = x.taken;
        p = q + 1;
    }
    t
}

// Whether few of n pixels of width 1 take an entry, by the counts that are stated, and the baseline is of two bytes.
fn expects_few(w: Width, c: StepC, two: usize, four: usize, n: usize) -> bool
    ensures { result ≡ true → (w ≡ One) × (c.baseline ≤ 65535) }
{
    let few = n / 16;
    matches!(w, Width::One)
        && c.baseline <= 65535
        && c.count as usize <= few
        && two <= few
        && four <= few
}

// Width 4 where step c does not apply: the stored values are the pixels, and no table has an entry.
fn is_plain(w: Width, c: StepC) -> bool
    ensures { result ≡ true → (w ≡ Four) × (c.applies ≡ false) }
{
    matches!(w, Width::Four) && !c.applies
}

// The stored values of width 4 as the pixels.
fn load_plain(image: &[u8], pixels: &mut [u32]) -> Taken
    requires { length pixels.old * 4 ≤ length image.now }
    ensures value { result ≡ untaken }
    ensures pixels_after { pixels.new ≡ entries 4 (length pixels.old) image.now }
{
    table::load_halves(image, Width::Four, pixels);
    UNTAKEN
}

// The three steps of all blocks, by the way that suits the frame.
fn all_blocks(image: &[u8], w: Width, tables: Tables, c: StepC, pixels: &mut [u32]) -> Taken
    requires { length pixels.old * width_bytes w ≤ length image.now }
    ensures { Whole (width_bytes w) c.applies c.baseline (parts_of (width_bytes w) (entry_bytes c.width) (length pixels.old) image.now tables.entry.under.now tables.entry.two.now tables.entry.four.now) pixels.new result }
{
    if expects_few(
        w,
        c,
        tables.two.len() / 2,
        tables.four.len() / 4,
        pixels.len(),
    ) {
        return step_runs(image, tables, c, pixels);
    }
    if is_plain(w, c) {
        return load_plain(image, pixels);
    }
    blocks(image, w, tables, c, pixels)
}

// Each step took exactly the entries that there are.
fn used_up(t: Taken, two: usize, four: usize, under: usize) -> bool
    ensures { result ≡ (t.two == two && t.four == four && t.under == under) }
{
    t.two == two && t.four == four && t.under == under
}

// The steps on exactly the pixels of the image, and tables that hold only entries; zeros where refused.
fn expand_parts(
    image: &[u8],
    w: Width,
    tables: Tables,
    c: StepC,
    end: u64,
    pixels: &mut [u32],
) -> Result<u64, Refusal>
    requires { length pixels.old * width_bytes w ≤ length image.now }
    ensures value { result ≡ steps_answer (width_bytes w) c.applies c.baseline end (parts_of (width_bytes w) (entry_bytes c.width) (length pixels.old) image.now tables.entry.under.now tables.entry.two.now tables.entry.four.now) }
    ensures pixels_after { pixels.new ≡ steps_pixels (width_bytes w) c.applies c.baseline (length pixels.old) (parts_of (width_bytes w) (entry_bytes c.width) (length pixels.old) image.now tables.entry.under.now tables.entry.two.now tables.entry.four.now) }
{
    let e = c.width;
    let each = layout::entry_bytes(e);
    let t = all_blocks(image, w, tables, c, pixels);
    if !used_up(
        t,
        tables.two.len() / 2,
        tables.four.len() / 4,
        tables.under.len() / each,
    ) {
        table::clear(pixels);
        return Err(Refusal::CountMismatch);
    }
    if t.over {
        table::clear(pixels);
        return Err(Refusal::SumTooLarge);
    }
    Ok(end)
}

fn step_of(u: Underflows) -> StepC
    ensures { result ≡ step_of u }
{
    match u {
        Underflows::Unused => StepC {
            applies: false,
            width: EntryWidth::One,
            count: 0,
            baseline: 0,
        },
        Underflows::NoWidth { baseline } => StepC {
            applies: true,
            width: EntryWidth::One,
            count: 0,
            baseline,
        },
        Underflows::Counted {
            entry,
            count,
            baseline,
        } => StepC {
            applies: true,
            width: entry,
            count,
            baseline,
        },
    }
}

// Where a table of `count` entries lies that starts at `start`.
fn extent_of(start: usize, w: Width, count: u32) -> Extent
    requires { start + 2 ^ 35 < 2 ^ 64 }
    ensures value { result ≡ extent_of start (width_bytes w) count }
    ensures end_bound { result.end ≤ start + 2 ^ 35 }
{
    let each = layout::width_bytes(w);
    let n = count as usize;
    let padding = start + n * each;
    let end = start + layout::table_bytes(w, count);
    Extent {
        start,
        padding,
        end,
    }
}

// Where the parts of a frame of n pixels lie.
fn places_of(image: Image, tables: BinaryTables, n: usize) -> Places
    requires { (n ≡ pixel_count image) × (n * 4 < 2 ^ 63) }
    ensures { result ≡ places_of image tables }
{
    let u = tables.underflows;
    let c = step_of(u);
    let start = image.start as usize;
    let w = image.width;
    let end = start + n * layout::width_bytes(w);
    let e = c.width;
    let under = extent_of(end, layout::entry_width(e), c.count);
    let two = extent_of(under.end, Width::Two, tables.two);
    let four = extent_of(two.end, Width::Four, tables.four);
    Places {
        image: start,
        under,
        two,
        four,
    }
}

// The padding of a table is zero.
fn padding_zero(bytes: &[u8], x: Extent) -> bool
    requires { (x.padding ≤ x.end) × (x.end ≤ length bytes.now) }
    ensures { result ≡ gap_zero x bytes.now }
{
    let from = x.padding;
    let end = x.end;
    table::all_zero(&bytes[from..end])
}

// The padding of each table is zero.
fn paddings_zero(bytes: &[u8], under: Extent, two: Extent, four: Extent) -> bool
    requires { (under.padding ≤ under.end) × (under.end ≤ length bytes.now) × (two.padding ≤ two.end) × (two.end ≤ length bytes.now) × (four.padding ≤ four.end) × (four.end ≤ length bytes.now) }
    ensures { result ≡ (gap_zero under bytes.now && gap_zero two bytes.now && gap_zero four bytes.now) }
{
    padding_zero(bytes, under) && padding_zero(bytes, two) && padding_zero(bytes, four)
}

// Where the parts of a frame lie, if they are there and the padding of each table is zero.
pub fn parts_of(bytes: &[u8], image: Image, tables: BinaryTables) -> Option<Places>
    ensures { result ≡ if◌then◌else◌ (parts_whole bytes.now image tables) (Some (places_of image tables)) None }
{
    let n = layout::pixel_count(image);
    if 4294967296 < n {
        return None;
    }
    let p = places_of(image, tables, n);
    let under = p.under;
    let two = p.two;
    let four = p.four;
    let end = four.end;
    if bytes.len() < end {
        return None;
    }
    if !paddings_zero(bytes, under, two, four) {
        return None;
    }
    Some(p)
}

// 12, and then the steps, on exactly the pixels of the image.
fn expand_frame(
    bytes: &[u8],
    image: Image,
    tables: BinaryTables,
    p: Places,
    pixels: &mut [u32],
) -> Result<u64, Refusal>
    requires { (p ≡ places_of image tables) × (binary_end image tables ≤ length bytes.now) × (length pixels.old ≡ pixel_count image) }
    ensures value { result ≡ frame_answer bytes.now image tables }
    ensures pixels_after { pixels.new ≡ first_pixels bytes.now image tables }
{
    let under = p.under;
    let two = p.two;
    let four = p.four;
    if !paddings_zero(bytes, under, two, four) {
        table::clear(pixels);
        return Err(Refusal::PaddingNotZero);
    }
    let u = tables.underflows;
    let c = step_of(u);
    let start = p.image;
    let us = under.start;
    let ue = under.padding;
    let ts = two.start;
    let te = two.padding;
    let fs = four.start;
    let fe = four.padding;
    let w = image.width;
    expand_parts(
        &bytes[start..us],
        w,
        Tables {
            two: &bytes[ts..te],
            four: &bytes[fs..fe],
            under: &bytes[us..ue],
        },
        c,
        four.end as u64,
        pixels,
    )
}

// Expands a frame of FORMAT 100 into the start of pixels.
pub fn expand(
    bytes: &[u8],
    image: Image,
    tables: BinaryTables,
    pixels: &mut [u32],
) -> Result<u64, Refusal>
    ensures value { result ≡ binary_answer bytes.now image tables (length pixels.old) }
    ensures pixels_after { pixels.new ≡ binary_pixels bytes.now image tables pixels.old }
{
    let n = layout::pixel_count(image);
    if pixels.len() < n {
        return Err(Refusal::PixelArrayShort);
    }
    let p = places_of(image, tables, n);
    let four = p.four;
    if bytes.len() < four.end {
        return Err(Refusal::DataTruncated);
    }
    expand_frame(bytes, image, tables, p, &mut pixels[..n])
}
