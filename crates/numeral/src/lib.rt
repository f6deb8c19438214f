// Numbers written in characters: a header's numbers, its version and its decimal numbers.
#![tactic(auto)]

ghost use Rattle.std.specs.Prelude.{◌≡◌};
ghost use Rattle.numeral.specs.Runs.{in_class, passed};
ghost use Rattle.numeral.specs.Numerals.{is_whole, fraction_is_zero, is_minus_one, number_from, number_of, version_of, decimal_is};

// A kind of character.
#[derive(Clone, Copy)]
pub enum Class {
    Space,
    Other,
    Digit,
    Plus,
}

fn in_class(class: Class, b: u8) -> bool
    ensures { result ≡ in_class class b }
{
    match class {
        Class::Space => b == 32,
        Class::Other => b != 32,
        Class::Digit => 48 <= b && b <= 57,
        Class::Plus => b == 43,
    }
}

// Where the characters of a class that stand from `at` on end.
pub fn run_end(class: Class, text: &[u8], at: usize) -> usize
    ensures { result ≡ passed (in_class class) text.now at }
{
    for i in at..text.len() {
        if !in_class(class, text[i]) {
            return i;
        }
    }
    at.max(text.len())
}

// The number whose digits so far have the value `known` and whose other digits are `rest`. Each call has one digit less.
fn gather(rest: &[u8], known: u32) -> Option<u32>
    ensures { result ≡ number_from known rest.now }
{
    if rest.len() == 0 {
        return Some(known);
    }
    let b = rest[0];
    if b < 48 {
        return None;
    }
    if 57 < b {
        return None;
    }
    let next = known as u64 * 10 + (b - 48) as u64;
    if 4294967295 < next {
        return None;
    }
    gather(&rest[1..], next as u32)
}

// A number of the header.
pub fn number_of(field: &[u8]) -> Option<u32>
    ensures { result ≡ number_of field.now }
{
    if field.len() == 0 {
        return None;
    }
    if 10 < field.len() {
        return None;
    }
    gather(field, 0)
}

// The number of a version.
pub fn version_of(field: &[u8]) -> Option<u32>
    ensures { result ≡ version_of field.now }
{
    let digits = run_end(Class::Digit, field, 0);
    let end = run_end(Class::Plus, field, digits);
    if 2 < digits {
        return None;
    }
    if end < field.len() {
        return None;
    }
    if digits + 2 < end {
        return None;
    }
    number_of(&field[..digits])
}

// The characters are -1.
#[tactic(auto, unfolding(crate::specs::Numerals::is_minus_one))]
pub fn is_minus_one(field: &[u8]) -> bool
    ensures { result ≡ is_minus_one field.now }
{
    field == b"-1".as_slice()
}

// The characters are digits and have the value n.
#[tactic(auto, unfolding(crate::specs::Numerals::is_whole, crate::specs::Numerals::number_from))]
fn is_whole(digits: &[u8], n: u32) -> bool
    ensures { result ≡ is_whole n digits.now }
{
    if digits.len() == 0 {
        return false;
    }
    gather(digits, 0) == Some(n)
}

#[tactic(auto, unfolding(crate::specs::Numerals::fraction_is_zero))]
fn fraction_is_zero(rest: &[u8]) -> bool
    ensures { result ≡ fraction_is_zero rest.now }
{
    match rest {
        [] => true,
        [point, digits @ ..] => *point == b'.' && is_whole(digits, 0),
    }
}

// A number with or without a fraction is equal to n.
pub fn decimal_is(field: &[u8], n: u32) -> bool
    ensures { result ≡ decimal_is n field.now }
{
    let digits = run_end(Class::Digit, field, 0);
    is_whole(&field[..digits], n) && fraction_is_zero(&field[digits..])
}
