// The items of a d*TREK header's text in one pass: the syntax, a keyword twice, and where the values stand that are read.
#![tactic(auto)]

ghost use Rattle.std.specs.Prelude.{◌≡◌, ◌+◌, ◌*◌, ◌≤◌, ◌<◌, length};
ghost use Rattle.dtrek_items.specs.Keys.{Rising, Sought, Inserted};
ghost use Rattle.dtrek_items.specs.Survey.{is_there, value_at, Surveyed, no_contents, noted, noted_all};

use dtrek_text::{Cursor, Scanned};

// Where the content of an item stands: from behind its equals sign to its semicolon.
#[derive(Clone, Copy)]
pub struct Content {
    pub from: usize,
    pub stop: usize,
}

// The contents under the keywords that are read; none where no item has the keyword.
#[derive(Clone, Copy, Default)]
pub struct Contents {
    pub dim: Option<Content>,
    pub size1: Option<Content>,
    pub size2: Option<Content>,
    pub order: Option<Content>,
    pub kind: Option<Content>,
    pub compression: Option<Content>,
}

// Malformed is refusal 33. TooLong is for a text that is longer than any header.
#[derive(Clone, Copy)]
pub enum ItemsError {
    Malformed,
    TooLong,
}

pub fn is_there(c: Option<Content>) -> bool
    ensures { result ≡ is_there c }
{
    c.is_some()
}

// The value of an item, from the text that its content was found in; empty where there is none.
pub fn value(text: &[u8], c: Option<Content>) -> &[u8]
    ensures { result.now ≡ value_at text.now c }
{
    let Some(Content { from, stop }) = c else {
        return &text[..0];
    };
    let end = stop.min(text.len());
    match text.get(from..end) {
        Some(content) => dtrek_text::trim(content),
        None => &text[..0],
    }
}

// places: where keywords start, in the order of the keywords. The free place for one more, unless it stands there.
fn find(text: &[u8], places: &[u32], key: &[u8]) -> Option<usize>
    requires { Rising text.now places.now }
    ensures { Sought text.now places.now key.now result }
{
    places
        .binary_search_by(|place| dtrek_text::keyword_at(text, *place as usize).cmp(key))
        .err()
}

// The first k places with one more put in at i.
fn insert(places: &mut [u32], k: usize, i: usize, start: u32)
    requires { (i ≤ k) × (k < length places.old) }
    ensures { Inserted places.old k i start places.new }
{
    places.copy_within(i..k, i + 1);
    places[i] = start;
}

// The content under a keyword, if this item is the first that has it.
#[tactic(auto, unfolding(crate::specs::Survey::noted))]
fn note(c: Option<Content>, word: &[u8], key: &[u8], here: Content) -> Option<Content>
    ensures { result ≡ noted key.now word.now here c }
{
    match c {
        Some(_) => c,
        None => dtrek_text::same(word, key).then_some(here),
    }
}

// By name, since an array by number would name no keyword.
fn note_all(f: Contents, word: &[u8], here: Content) -> Contents
    ensures { result ≡ noted_all word.now here f }
{
    Contents {
        dim: note(f.dim, word, b"DIM", here),
        size1: note(f.size1, word, b"SIZE1", here),
        size2: note(f.size2, word, b"SIZE2", here),
        order: note(f.order, word, b"BYTE_ORDER", here),
        kind: note(f.kind, word, b"Data_type", here),
        compression: note(f.compression, word, b"COMPRESSION", here),
    }
}

fn no_contents() -> Contents
    ensures { result ≡ no_contents }
{
    Contents::default()
}

// The places of the keywords are kept in the order of the keywords, so that any header takes little time. An item takes four bytes at least.
// Without a heap: the caller lends the places, and k counts those that are taken.
fn survey_with(text: &[u8], places: &mut [u32]) -> Result<Contents, ItemsError>
    requires { (length text.now ≤ 99840) × (length text.now ≤ 4 * length places.old) }
    ensures { Surveyed text.now result }
{
    let mut c = Cursor { at: 0 };
    let mut k = 0;
    let mut f = no_contents();
    loop {
        let at = c.at;
        match c.item(text) {
            Scanned::Found {
                start,
                end,
                stop,
                next,
            } => {
                let Some(i) = find(text, &places[..k], &text[start..end]) else {
                    return Err(ItemsError::Malformed);
                };
                insert(places, k, i, start as u32);
                k += 1;
                let from = end + 1;
                f = note_all(f, &text[start..end], Content { from, stop });
                c = next;
            }
            Scanned::Bad => {
                return Err(ItemsError::Malformed);
            }
            Scanned::Last => {
                if dtrek_text::is_end(&text[at..]) {
                    return Ok(f);
                }
                return Err(ItemsError::Malformed);
            }
        }
    }
}

// With N places, for a text of up to 4 * N bytes.
fn survey_in<const N: usize>(text: &[u8]) -> Result<Contents, ItemsError>
    requires { (N ≤ 24960) × (length text.now ≤ 4 * N) }
    ensures { Surveyed text.now result }
{
    let mut places = [0u32; N];
    survey_with(text, &mut places)
}

// The items of a text in one pass: refusal 33, or where the values stand that are read. A usual header clears little memory.
pub fn survey(text: &[u8]) -> Result<Contents, ItemsError>
    ensures { Surveyed text.now result }
{
    if text.len() <= 8192 {
        survey_in::<2048>(text)
    } else if text.len() <= 99840 {
        survey_in::<24960>(text)
    } else {
        Err(ItemsError::TooLong)
    }
}
