// One pixel of a held frame replaced in place.
#![tactic(auto)]

ghost use Rattle.std.specs.Prelude.{◌≡◌, [], ◌∷◌, ◌+◌, ◌-◌, ◌*◌, ◌^◌, ◌≤◌, ◌<◌, length};
ghost use Rattle.lists.specs.Bytes.{padded_to};
ghost use Rattle.layout.specs.Form.{width_bytes};
ghost use Rattle.writer.specs.Storing.{lowered, at_most65535, stored_value, under_entries, two_entries, four_entries};
ghost use Rattle.writer.specs.Writer.{underflow_too_large};
ghost use Rattle.replacement.specs.Replaced.{len_then, len_now, cut_in, last_first, first_first, cut_all, CutFits, LastFits, FirstFits, AllFit, cut_of, entries_one, counts_after, under_cut, two_cut, four_cut, image_stop, entries_after, image_replaced, replaced_bytes, length_with, Placed};
ghost use Rattle.replacement.specs.Replace.{meets, replace_answer, replace_bytes};
ghost use Rattle.replacement.specs.Answered.{length_after, placed_answer, placed_bytes};

use canonical::Place;
use header_text::Counts;
use layout::{EntryWidth, Form, Underflow, Width};
use refusal::Refusal;

// A pixel's entry in a table, in bytes: the table's, those before the entry, its own, and the number that comes in its place.
#[derive(Clone, Copy)]
struct Cut {
    n: usize,
    before: usize,
    old: usize,
    value: u32,
    width: usize,
}

// A pixel less the baseline, 0 where it underflows.
fn lower(u: Underflow, base: u32, v: u32) -> u32
    ensures { result ≡ lowered u base v }
{
    match u {
        Underflow::None => v,
        Underflow::Subtracted(_) => v.saturating_sub(base),
    }
}

// The entry that a two-byte table has for it.
fn at_most_65535(x: u32) -> u32
    ensures { result ≡ at_most65535 x }
{
    x.min(65535)
}

// The number that the image has for it.
fn image_number(w: Width, x: u32) -> u32
    ensures { result ≡ stored_value w x }
{
    match w {
        Width::One => x.min(255),
        Width::Two => at_most_65535(x),
        Width::Four => x,
    }
}

// How many entries it has in each table. Not by pixel_counts, whose baseline has 16 bits: a place's has 32.
#[tactic(auto, unfolding(lists::specs::Only::only))]
fn under_entries(u: Underflow, base: u32, v: u32) -> u32
    ensures { result ≡ length (under_entries u base (v ∷ [])) }
{
    match u {
        Underflow::None => 0,
        Underflow::Subtracted(_) => u32::from(v <= base),
    }
}

#[tactic(auto, unfolding(lists::specs::Only::only))]
fn two_entries(w: Width, x: u32) -> u32
    ensures { result ≡ length (two_entries w (x ∷ [])) }
{
    match w {
        Width::One => u32::from(255 <= x),
        Width::Two | Width::Four => 0,
    }
}

#[tactic(auto, unfolding(lists::specs::Only::only))]
fn four_entries(w: Width, x: u32) -> u32
    ensures { result ≡ length (four_entries w (x ∷ [])) }
{
    match w {
        Width::One | Width::Two => u32::from(65535 <= x),
        Width::Four => 0,
    }
}

#[tactic(auto, unfolding(writer::specs::Storing::stored_for))]
fn entries_of(form: Form, base: u32, v: u32) -> Counts
    ensures { result ≡ entries_one form base v }
{
    let x = lower(form.underflow, base, v);
    Counts {
        under: under_entries(form.underflow, base, v),
        two: two_entries(form.width, x),
        four: four_entries(form.width, x),
    }
}

// 17: the entry does not fit its width.
#[tactic(auto, unfolding(lists::specs::Only::only, pixel_counts::specs::Counts::any_above255))]
fn too_large(u: Underflow, base: u32, v: u32) -> bool
    ensures { result ≡ underflow_too_large u (under_entries u base (v ∷ [])) }
{
    match u {
        Underflow::Subtracted(EntryWidth::One) => v <= base && 255 < v,
        Underflow::None | Underflow::Subtracted(EntryWidth::Two) => false,
    }
}

// The entries of the tables afterwards.
fn counts_after(all: Counts, old: Counts, new: Counts) -> Counts
    requires under_le_under { (old.under ≤ all.under) × (old.two ≤ all.two) × (old.four ≤ all.four) }
    requires under_bound { (all.under + new.under < 2 ^ 32) × (all.two + new.two < 2 ^ 32) × (all.four + new.four < 2 ^ 32) }
    ensures { result ≡ counts_after all old new }
{
    Counts {
        under: all.under - old.under + new.under,
        two: all.two - old.two + new.two,
        four: all.four - old.four + new.four,
    }
}

// Where the image ends.
fn image_stop(place: Place) -> usize
    requires { place.pixels ≤ 16777216 }
    ensures { result ≡ image_stop place }
{
    place.start as usize + place.pixels * layout::width_bytes(place.form.width)
}

// The length of the frame with so many entries.
fn length_with(place: Place, c: Counts) -> usize
    requires { place.pixels ≤ 16777216 }
    ensures { result ≡ length_with place c }
{
    let under = layout::underflow_table_bytes(place.form.underflow, c.under);
    let two = layout::table_bytes(Width::Two, c.two);
    let four = layout::table_bytes(Width::Four, c.four);
    image_stop(place) + under + two + four
}

fn padded_len(n: usize) -> usize
    requires { n < 9223372036854775824 }
    ensures { result ≡ padded_to 16 n }
{
    (n + 15) / 16 * 16
}

// A table with its padding, before the edit and after it.
fn len_then(k: Cut) -> usize
    requires { k.n < 9223372036854775808 }
    ensures { result ≡ len_then k }
{
    padded_len(k.n)
}

fn len_now(k: Cut) -> usize
    requires { (k.n < 9223372036854775808) × (k.old ≤ k.n) × (k.width ≤ 16) }
    ensures { result ≡ len_now k }
{
    padded_len(k.n - k.old + k.width)
}

fn cut_of(w: usize, n: u32, before: u32, old: u32, new: u32, value: u32) -> Cut
    requires { w ≤ 4 }
    ensures { result ≡ cut_of w n before old new value }
{
    Cut {
        n: n as usize * w,
        before: before as usize * w,
        old: old as usize * w,
        value,
        width: new as usize * w,
    }
}

// The entry replaced in a table that starts at s, with `post` bytes of the frame behind it.
fn edit(held: &mut [u8], k: Cut, s: usize, post: usize)
    requires { CutFits (length held.old) k s post }
    ensures { held.new ≡ cut_in k s post held.old }
{
    splice::edit(held, s, k.n, k.before, k.old, post, k.value, k.width);
}

// The last table first: for a count that underflows. Here and below the three cuts stay arguments, since LastFits, FirstFits and cut_all
// (specs/Replaced.antt) take them one by one.
fn last_first(held: &mut [u8], s: usize, u: Cut, t: Cut, f: Cut)
    requires { LastFits (length held.old) s u t f }
    ensures { held.new ≡ last_first s u t f held.old }
{
    let under = len_then(u);
    let two = len_then(t);
    let two_now = len_now(t);
    let four_now = len_now(f);
    edit(held, f, s + under + two, 0);
    edit(held, t, s + under, four_now);
    edit(held, u, s, two_now + four_now);
}

// The first table first: for any other count.
fn first_first(held: &mut [u8], s: usize, u: Cut, t: Cut, f: Cut)
    requires { FirstFits (length held.old) s u t f }
    ensures { held.new ≡ first_first s u t f held.old }
{
    let two = len_then(t);
    let four = len_then(f);
    let under_now = len_now(u);
    let two_now = len_now(t);
    edit(held, u, s, two + four);
    edit(held, t, s + under_now, four);
    edit(held, f, s + under_now + two_now, 0);
}

fn edit_tables(held: &mut [u8], s: usize, u: Cut, t: Cut, f: Cut)
    requires { AllFit (length held.old) s u t f }
    ensures { held.new ≡ cut_all s u t f held.old }
{
    if 0 < u.width {
        last_first(held, s, u, t, f);
    } else {
        first_first(held, s, u, t, f);
    }
}

// The pixel's entries in the three tables.
fn put_tables(held: &mut [u8], place: Place, v: u32)
    requires pixels_bound { place.pixels ≤ 16777216 }
    requires all_fit { AllFit (length held.old) (image_stop place) (under_cut place v) (two_cut place v) (four_cut place v) }
    ensures { held.new ≡ cut_all (image_stop place) (under_cut place v) (two_cut place v) (four_cut place v) held.old }
{
    let form = place.form;
    let u = form.underflow;
    let base = place.baseline;
    let all = place.entries;
    let before = place.before;
    let low = lower(u, base, v);
    let old = entries_of(form, base, place.old);
    let new = entries_of(form, base, v);
    let under = cut_of(
        layout::underflow_bytes(u) as usize,
        all.under,
        before.under,
        old.under,
        new.under,
        v,
    );
    let two = cut_of(2, all.two, before.two, old.two, new.two, at_most_65535(low));
    let four = cut_of(4, all.four, before.four, old.four, new.four, low);
    edit_tables(held, image_stop(place), under, two, four);
}

// The pixel's number in the image.
fn put_image(held: &mut [u8], place: Place, pixel: u32, v: u32)
    requires { place.start + pixel * width_bytes place.form.width + width_bytes place.form.width ≤ length held.old }
    ensures { held.new ≡ image_replaced place pixel v held.old }
{
    let form = place.form;
    let w = form.width;
    let u = form.underflow;
    let each = layout::width_bytes(w);
    let at = place.start as usize + pixel as usize * each;
    let x = lower(u, place.baseline, v);
    splice::put(held, at, image_number(w, x), each);
}

// The entries of the tables with the new count.
fn entries_after(place: Place, v: u32) -> Counts
    requires place_bound { ((entries_one place.form place.baseline place.old).under ≤ place.entries.under) × ((entries_one place.form place.baseline place.old).two ≤ place.entries.two) × ((entries_one place.form place.baseline place.old).four ≤ place.entries.four) }
    requires under_bound { (place.entries.under ≤ 16777216) × (place.entries.two ≤ 16777216) × (place.entries.four ≤ 16777216) }
    ensures { result ≡ entries_after place v }
{
    let form = place.form;
    let base = place.baseline;
    let all = place.entries;
    let old = entries_of(form, base, place.old);
    let new = entries_of(form, base, v);
    counts_after(all, old, new)
}

// The pixel in the image, in the tables, and in the header's counts.
fn put_pixel(held: &mut [u8], place: Place, pixel: u32, v: u32, after: Counts)
    requires { (after ≡ entries_after place v) × Placed held.old place pixel × (length_after place v ≤ length held.old) }
    ensures { held.new ≡ replaced_bytes place pixel v held.old }
{
    let form = place.form;
    let start = place.start as usize;
    put_image(held, place, pixel, v);
    put_tables(held, place, v);
    header_text::rewrite(&mut held[..start], form, after);
}

// Whether the pixel holds what is expected of it.
pub fn is_met(expected: Option<u32>, old: u32) -> bool
    ensures { result ≡ meets expected old }
{
    expected.is_none_or(|n| old == n)
}

// 23, 17 and 18, and only then the first byte.
fn replace_at(
    held: &mut [u8],
    place: Place,
    pixel: u32,
    expected: Option<u32>,
    count: u32,
) -> Result<u32, Refusal>
    requires { Placed held.old place pixel }
    ensures value { result ≡ placed_answer held.old place expected count }
    ensures held_after { held.new ≡ placed_bytes held.old place pixel expected count }
{
    if !is_met(expected, place.old) {
        return Err(Refusal::PixelDiffers);
    }
    if too_large(place.form.underflow, place.baseline, count) {
        return Err(Refusal::UnderflowTooLarge);
    }
    let after = entries_after(place, count);
    if held.len() < length_with(place, after) {
        return Err(Refusal::OutputShort);
    }
    put_pixel(held, place, pixel, count, after);
    Ok(place.old)
}

// One count of a held frame replaced, if the pixel holds what is expected: 19, 24, 23, 17, 18, or the old count.
pub fn replace(
    held: &mut [u8],
    pixel: u32,
    expected: Option<u32>,
    count: u32,
) -> Result<u32, Refusal>
    ensures value { result ≡ replace_answer held.old pixel expected count }
    ensures held_after { held.new ≡ replace_bytes held.old pixel expected count }
{
    let place = canonical::locate(held, pixel)?;
    replace_at(held, place, pixel, expected, count)
}
