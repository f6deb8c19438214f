// The check of a held frame: whether the writer would give these bytes for what is read from them, and where a pixel's entries stand.
#![tactic(auto)]

ghost use Rattle.std.specs.Prelude.{◌≡◌, true, false, ◌&&◌, ◌+◌, ◌-◌, ◌<◌, ◌≤◌, ◌^◌, length, take, eqb};
ghost use Rattle.layout.specs.Form.{width_bytes};
ghost use Rattle.layout.specs.Layout.{underflow_count};
ghost use Rattle.table.specs.Table.{whole_entries};
ghost use Rattle.expand.specs.Expand.{stored_of, parts_whole};
ghost use Rattle.expand.specs.Places.{places_of};
ghost use Rattle.writer.specs.Frame.{stored_counts};
ghost use Rattle.writer.specs.Blocks.{given_baseline};
ghost use Rattle.pixel_counts.specs.Counts.{under_count, two_count};
ghost use Rattle.tally.specs.Tally.{tally_of};
ghost use Rattle.canonical.specs.Located.{located, unlocated};
ghost use Rattle.canonical.specs.Check.{mark_of, four_marks, entries_for, same_counts, numbers_within, after_two, after_four, after_under, pixel_at, stated_counts, check_form, check_tables, checked};
ghost use Rattle.canonical.specs.Parts.{under_bytes, parts_stored, seen_of, FormOf, check_stored};

use expand::Places;
use header_text::Counts;
use layout::{BinaryTables, Form, Image, Tables, Underflow, Underflows, Width};
use refusal::Refusal;
use tally::Tally;

// A pixel of a held frame: the form, the numbers of pixels and of entries, the entries of the pixels before it, and its count.
// Kind none has the baseline 0.
#[derive(Clone, Copy)]
pub struct Place {
    pub start: u32,
    pub pixels: usize,
    pub form: Form,
    pub baseline: u32,
    pub entries: Counts,
    pub before: Counts,
    pub old: u32,
}

// Why a pixel has no place.
#[derive(Clone, Copy)]
pub enum Unlocated {
    NotCanonical,
    NoPixel,
}

impl From<Unlocated> for Refusal {
    ghost from_gives = { λ u r. r ≡ unlocated u };

    fn from(u: Unlocated) -> Refusal {
        match u {
            Unlocated::NotCanonical => Refusal::HeldNotCanonical,
            Unlocated::NoPixel => Refusal::NoSuchPixel,
        }
    }
}

// The counts of the first entries of a table, and of all.
#[derive(Clone, Copy)]
struct Split {
    first: Tally,
    all: Tally,
}

// The bytes of the image and of the tables, without their paddings.
#[derive(Clone, Copy)]
struct Parts<'a> {
    image: &'a [u8],
    under: &'a [u8],
    two: &'a [u8],
    four: &'a [u8],
}

// The zeros and marks of an image, and the marks of a two-byte table.
#[derive(Clone, Copy)]
struct Marks {
    zeros: usize,
    marks: usize,
    two_marks: usize,
}

// The marks before a pixel and of the whole, and whether every number lies where the writer's do.
#[derive(Clone, Copy)]
struct Seen {
    before: Marks,
    all: Marks,
    within: bool,
}

fn mark_of(w: Width) -> u32
    ensures { result ≡ mark_of w }
{
    match w {
        Width::One => 255,
        Width::Two => 65535,
        Width::Four => 0,
    }
}

// The width of an underflow entry; kind none has no entries, of any width.
fn under_width(u: Underflow) -> Width
    ensures { width_bytes result ≡ under_bytes u }
{
    match u {
        Underflow::None => Width::One,
        Underflow::Subtracted(e) => layout::entry_width(e),
    }
}

fn under_asked(u: Underflow, zeros: usize) -> usize
    ensures { result ≡ under_count u zeros }
{
    match u {
        Underflow::None => 0,
        Underflow::Subtracted(_) => zeros,
    }
}

fn two_asked(w: Width, marks: usize) -> usize
    ensures { result ≡ two_count w marks }
{
    match w {
        Width::One => marks,
        Width::Two | Width::Four => 0,
    }
}

fn four_asked(w: Width, marks: usize, two_marks: usize) -> usize
    ensures { result ≡ four_marks w marks two_marks }
{
    match w {
        Width::One => two_marks,
        Width::Two => marks,
        Width::Four => 0,
    }
}

// The entries that go with the marks are those that there are.
fn same_entries(form: Form, m: Marks, c: Counts) -> bool
    ensures { result ≡ same_counts (entries_for form m.zeros m.marks m.two_marks) c }
{
    under_asked(form.underflow, m.zeros) == c.under as usize
        && two_asked(form.width, m.marks) == c.two as usize
        && four_asked(form.width, m.marks, m.two_marks) == c.four as usize
}

// The entries that go with the marks.
fn entries_for(form: Form, m: Marks) -> Counts
    requires { (m.zeros < 2 ^ 32) × (m.marks < 2 ^ 32) × (m.two_marks < 2 ^ 32) }
    ensures { result ≡ entries_for form m.zeros m.marks m.two_marks }
{
    Counts {
        under: under_asked(form.underflow, m.zeros) as u32,
        two: two_asked(form.width, m.marks) as u32,
        four: four_asked(form.width, m.marks, m.two_marks) as u32,
    }
}

// The counts of the first j entries of a table, and of all.
fn tally_at(t: &[u8], w: Width, j: usize, mark: u32, low: u32, high: u32) -> Split
    ensures { (result.first ≡ tally_of mark low high (take j (whole_entries (width_bytes w) t.now))) × (result.all ≡ tally_of mark low high (whole_entries (width_bytes w) t.now)) }
{
    let each = layout::width_bytes(w);
    let k = j.min(t.len() / each);
    let at = k * each;
    let first = tally::tally_table(&t[..at], w, mark, low, high);
    let rest = tally::tally_table(&t[at..], w, mark, low, high);
    let all = Tally {
        zeros: first.zeros + rest.zeros,
        marks: first.marks + rest.marks,
        outside: first.outside + rest.outside,
    };
    Split { first, all }
}

fn none_outside(image: Tally, under: Tally, two: Tally, four: Tally) -> bool
    ensures { result ≡ (eqb image.outside 0 && eqb under.outside 0 && eqb two.outside 0 && eqb four.outside 0) }
{
    image.outside == 0 && under.outside == 0 && two.outside == 0 && four.outside == 0
}

// One pass over the image and the tables.
fn look(p: Parts<'_>, form: Form, base: u32, j: usize) -> Seen
    ensures { result ≡ seen_of form base (parts_stored form p.entry.image.now p.entry.under.now p.entry.two.now p.entry.four.now) j }
{
    let w = form.width;
    let high = 4294967295 - base;
    let i = tally_at(p.image, w, j, mark_of(w), 0, high);
    let k = two_asked(w, i.first.marks);
    let t = tally_at(p.two, Width::Two, k, 65535, 255, 65535);
    let c = tally::tally_table(p.under, under_width(form.underflow), 0, 0, base);
    let f = tally::tally_table(p.four, Width::Four, 0, 65535, high);
    let within = none_outside(i.all, c, t.all, f);
    Seen {
        before: Marks {
            zeros: i.first.zeros,
            marks: i.first.marks,
            two_marks: t.first.marks,
        },
        all: Marks {
            zeros: i.all.zeros,
            marks: i.all.marks,
            two_marks: t.all.marks,
        },
        within,
    }
}

// Step a at one pixel: e is its two-byte entry if it takes one.
fn after_two(w: Width, x: u32, e: u32) -> u32
    ensures { result ≡ after_two w x e }
{
    match w {
        Width::One => if x == 255 { e } else { x },
        Width::Two | Width::Four => x,
    }
}

// Step b at one pixel.
fn after_four(w: Width, x: u32, e: u32) -> u32
    ensures { result ≡ after_four w x e }
{
    match w {
        Width::One | Width::Two => if x == 65535 { e } else { x },
        Width::Four => x,
    }
}

// Step c at one pixel.
fn after_under(u: Underflow, base: u32, x: u32, e: u32) -> u32
    requires { x + base < 2 ^ 32 }
    ensures { result ≡ after_under u base x e }
{
    let Underflow::Subtracted(_) = u else {
        return x;
    };
    if x == 0 { e } else { x + base }
}

// Pixel j of canonical numbers, with these entries before it.
fn pixel_at(p: Parts<'_>, form: Form, base: u32, before: Counts, j: usize) -> u32
    requires { (base ≤ 65535) × (numbers_within base (parts_stored form p.image.now p.under.now p.two.now p.four.now) ≡ true) }
    ensures { result ≡ pixel_at form base (parts_stored form p.entry.image.now p.entry.under.now p.entry.two.now p.entry.four.now) before j }
{
    let w = form.width;
    let u = form.underflow;
    let x = table::entry(p.image, w, j);
    let a = after_two(w, x, table::entry(p.two, Width::Two, before.two as usize));
    let b = after_four(
        w,
        a,
        table::entry(p.four, Width::Four, before.four as usize),
    );
    let e = table::entry(p.under, under_width(u), before.under as usize);
    after_under(u, base, b, e)
}

// The check from the parts on. The entries and the pixels are as many as the header states. The other arguments stay apart, since
// check_stored and place_by (specs/) take them one by one.
fn check_parts(
    p: Parts<'_>,
    start: u32,
    form: Form,
    base: u32,
    entries: Counts,
    n: usize,
    pixel: u32,
) -> Result<Place, Unlocated>
    requires { (base ≤ 65535) × (entries ≡ stored_counts (parts_stored form p.image.now p.under.now p.two.now p.four.now)) × (n ≡ length (parts_stored form p.image.now p.under.now p.two.now p.four.now).image) }
    ensures { result ≡ check_stored start form base (parts_stored form p.entry.image.now p.entry.under.now p.entry.two.now p.entry.four.now) pixel }
{
    let s = look(p, form, base, pixel as usize);
    if !s.within {
        return Err(Unlocated::NotCanonical);
    }
    if !same_entries(form, s.all, entries) {
        return Err(Unlocated::NotCanonical);
    }
    if n <= pixel as usize {
        return Err(Unlocated::NoPixel);
    }
    let before = entries_for(form, s.before);
    let old = pixel_at(p, form, base, before, pixel as usize);
    Ok(Place {
        start,
        pixels: n,
        form,
        baseline: base,
        entries,
        before,
        old,
    })
}

fn underflow_count(u: Underflows) -> u32
    ensures { result ≡ underflow_count u }
{
    match u {
        Underflows::Unused | Underflows::NoWidth { .. } => 0,
        Underflows::Counted { count, .. } => count,
    }
}

// The entries that the header states.
fn stated_counts(t: BinaryTables) -> Counts
    ensures { result ≡ stated_counts t }
{
    Counts {
        under: underflow_count(t.underflows),
        two: t.two,
        four: t.four,
    }
}

// The check of the parts that lie at p.
fn check_at(
    held: &[u8],
    image: Image,
    t: BinaryTables,
    form: Form,
    base: u32,
    p: Places,
    entries: Counts,
    pixel: u32,
) -> Result<Place, Unlocated>
    requires { (base ≤ 65535) × FormOf form image t × (parts_whole held.now image t ≡ true) × (p ≡ places_of image t) × (entries ≡ stated_counts t) }
    ensures { result ≡ check_stored image.start form base (stored_of held.now image t) pixel }
{
    let parts = Parts {
        image: &held[p.image..p.under.start],
        under: &held[p.under.start..p.under.padding],
        two: &held[p.two.start..p.two.padding],
        four: &held[p.four.start..p.four.padding],
    };
    let n = layout::pixel_count(image);
    check_parts(parts, image.start, form, base, entries, n, pixel)
}

// The check of a frame of FORMAT 100 in the form and with the baseline that its header names.
fn check_form(
    held: &[u8],
    image: Image,
    t: BinaryTables,
    form: Form,
    base: u32,
    pixel: u32,
) -> Result<Place, Unlocated>
    requires { (base ≤ 65535) × FormOf form image t }
    ensures { result ≡ check_form held.now image t form base pixel }
{
    let Some(p) = expand::parts_of(held, image, t) else {
        return Err(Unlocated::NotCanonical);
    };
    let entries = stated_counts(t);
    if !header_text::is_rewritten(&held[..p.image], form, entries) {
        return Err(Unlocated::NotCanonical);
    }
    if !table::all_zero(&held[p.four.end..]) {
        return Err(Unlocated::NotCanonical);
    }
    check_at(held, image, t, form, base, p, entries, pixel)
}

// By the underflows that the header states.
fn check_tables(held: &[u8], image: Image, t: BinaryTables, pixel: u32) -> Result<Place, Unlocated>
    requires { given_baseline t.underflows ≤ 65535 }
    ensures { result ≡ check_tables held.now image t t.underflows pixel }
{
    let width = image.width;
    match t.underflows {
        Underflows::Unused => {
            let underflow = Underflow::None;
            check_form(held, image, t, Form { width, underflow }, 0, pixel)
        }
        Underflows::NoWidth { .. } => Err(Unlocated::NotCanonical),
        Underflows::Counted {
            entry,
            baseline,
            ..
        } => {
            let underflow = Underflow::Subtracted(entry);
            check_form(held, image, t, Form { width, underflow }, baseline, pixel)
        }
    }
}

// The check, part by part.
fn check(held: &[u8], pixel: u32) -> Result<Place, Unlocated>
    ensures { result ≡ checked held.now pixel }
{
    let Ok(h) = header::read_header(held) else {
        return Err(Unlocated::NotCanonical);
    };
    let Tables::Format100(t) = h.tables else {
        return Err(Unlocated::NotCanonical);
    };
    check_tables(held, h.image, t, pixel)
}

// 19, 24, or a pixel's place in a held frame.
pub fn locate(held: &[u8], pixel: u32) -> Result<Place, Unlocated>
    ensures { result ≡ located held.now pixel }
{
    check(held, pixel)
}
