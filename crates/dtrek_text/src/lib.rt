// The text of a d*TREK header: items that end with a semicolon, and the header's end.
#![tactic(auto)]

ghost use Rattle.std.specs.Prelude.{◌≡◌, not, position};
ghost use Rattle.lists.specs.Bytes.{same_bytes};
ghost use Rattle.numeral.specs.Runs.{leading, passed};
ghost use Rattle.dtrek_text.specs.Bytes.{is_white, is_plain, in_class, keyword_at, trimmed};
ghost use Rattle.dtrek_text.specs.Parts.{on_new_line, is_end};
ghost use Rattle.dtrek_text.specs.Scan.{word_of, item_from};

// A kind of byte.
#[derive(Clone, Copy)]
pub enum Class {
    White,
    Keyword,
    Value,
    Space,
}

fn is_white(b: u8) -> bool
    ensures { result ≡ is_white b }
{
    b == 32 || b == 9 || b == 10
}

fn is_plain(b: u8) -> bool
    ensures { result ≡ is_plain b }
{
    b != 61 && b != 59 && b != 123 && b != 125
}

// Bytes above the equals sign first: letters and underscores.
fn in_keyword(b: u8) -> bool
    ensures { result ≡ in_class Class.Keyword b }
{
    if 61 < b {
        b != 123 && b != 125
    } else {
        !is_white(b) && is_plain(b)
    }
}

fn in_class(class: Class, b: u8) -> bool
    ensures { result ≡ in_class class b }
{
    match class {
        Class::White => is_white(b),
        Class::Keyword => in_keyword(b),
        Class::Value => b != 59,
        Class::Space => b == 32,
    }
}

// Where the first byte that is not of a class stands.
fn first_other(class: Class, v: &[u8]) -> Option<usize>
    ensures { result ≡ position (λ b. not (in_class class b)) v.now }
{
    v.iter().position(|b| !in_class(class, *b))
}

// How many bytes of a class stand at the front.
fn run(class: Class, v: &[u8]) -> usize
    ensures { result ≡ leading (in_class class) v.now }
{
    first_other(class, v).unwrap_or(v.len())
}

// Where the bytes of a class that stand from `at` on end. numeral has the same over the classes of a Bruker header: one function over both would need a
// trait of classes with its law, for two callers of four lines each.
fn run_end(class: Class, text: &[u8], at: usize) -> usize
    ensures { result ≡ passed (in_class class) text.now at }
{
    match text.get(at..) {
        Some(rest) => at + run(class, rest),
        None => at,
    }
}

// How many bytes of white space stand at the front.
pub fn white_run(v: &[u8]) -> usize
    ensures { result ≡ leading is_white v.now }
{
    run(Class::White, v)
}

// Without the white space at both ends.
pub fn trim(v: &[u8]) -> &[u8]
    ensures { result.now ≡ trimmed v.now }
{
    let mut rest = &v[white_run(v)..];
    while let [front @ .., last] = rest {
        if !is_white(*last) {
            return rest;
        }
        rest = front;
    }
    rest
}

pub fn same(a: &[u8], b: &[u8]) -> bool
    ensures { result ≡ same_bytes a.now b.now }
{
    a == b
}

// Each part begins with a newline.
fn on_new_line(p: &[u8]) -> bool
    ensures { result ≡ on_new_line p.now }
{
    !p.is_empty() && p[0] == 10
}

// Whether a part is the header's end.
pub fn is_end(p: &[u8]) -> bool
    ensures { result ≡ is_end p.now }
{
    if !on_new_line(p) {
        return false;
    }
    let start = run(Class::White, p);
    p[start..].starts_with(b"}\n\x0c\n") && p.len() <= run_end(Class::Space, p, start + 4)
}

// The keyword that starts at a place; nothing past the end.
pub fn keyword_at(text: &[u8], from: usize) -> &[u8]
    ensures { result.now ≡ keyword_at text.now from }
{
    match text.get(from..) {
        Some(rest) => &rest[..run(Class::Keyword, rest)],
        None => &text[..0],
    }
}

// Where the keyword of a part stands, if the part is an item.
#[derive(Clone, Copy)]
struct Word {
    start: usize,
    end: usize,
}

fn word_of(p: &[u8]) -> Option<Word>
    ensures { result ≡ word_of p.now }
{
    if !on_new_line(p) {
        return None;
    }
    let start = run(Class::White, p);
    let end = run_end(Class::Keyword, p, start);
    if start < end && end < p.len() && p[end] == 61 {
        Some(Word { start, end })
    } else {
        None
    }
}

// The place in the text behind the last semicolon that was read.
#[derive(Clone, Copy)]
pub struct Cursor {
    pub at: usize,
}

// Three outcomes, each of which the reader meets in its own way, and so no `Result` of an `Option`.
// Found: an item's keyword stands from start to end, its content from behind the equals sign at end to the semicolon at stop; next
// reads on behind it. Bad: a semicolon ends what is no item. Last: no semicolon follows.
#[derive(Clone, Copy)]
pub enum Scanned {
    Found {
        start: usize,
        end: usize,
        stop: usize,
        next: Cursor,
    },
    Bad,
    Last,
}

impl Cursor {
    pub fn item(self, text: &[u8]) -> Scanned
        ensures { result ≡ item_from text.now self.at }
    {
        let at = self.at;
        let stop = run_end(Class::Value, text, at);
        if text.len() <= stop {
            return Scanned::Last;
        }
        let Some(Word { start, end }) = word_of(&text[at..stop]) else {
            return Scanned::Bad;
        };
        Scanned::Found {
            start: at + start,
            end: at + end,
            stop,
            next: Cursor { at: stop + 1 },
        }
    }
}
