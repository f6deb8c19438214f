// A reader that holds a line and the place in it after the last field taken. It takes the struct apart and leaves the work to a
// function on a slice and a number.
#![tactic(auto)]

ghost use Rattle.std.specs.Prelude.{◌≡◌};
ghost use Rattle.field.specs.Fields.{field_from, number_field};

use field::{Cursor, Field};

#[derive(Clone, Copy)]
pub struct LineReader<'a> {
    pub line: &'a [u8],
    pub at: usize,
}

// The work, on a slice and a number: the cursor's own functions.
fn field_from(line: &[u8], at: usize) -> Option<Field>
    ensures { result ≡ field_from line.now at }
{
    Cursor { at }.field(line)
}

fn number_from(line: &[u8], at: usize) -> Option<(u32, Cursor)>
    ensures { result ≡ number_field line.now at }
{
    Cursor { at }.number(line)
}

impl<'a> LineReader<'a> {
    // A reader of a line, from the place at on.
    pub fn new(line: &'a [u8], at: usize) -> LineReader<'a>
        ensures { (result.line ≡ line.entry) × (result.at ≡ at) }
    {
        LineReader { line, at }
    }

    // The next field, with the cursor behind it.
    pub fn next_field(self) -> Option<Field>
        ensures { result ≡ field_from self.entry.line.now self.entry.at }
    {
        field_from(self.line, self.at)
    }

    // The next field as a number, with the cursor behind it.
    pub fn next_number(self) -> Option<(u32, Cursor)>
        ensures { result ≡ number_field self.entry.line.now self.entry.at }
    {
        number_from(self.line, self.at)
    }
}

// What stands next in a line, from the place at on. The parameters are plain.
pub fn field_at(line: &[u8], at: usize) -> Option<Field>
    ensures { result ≡ field_from line.now at }
{
    LineReader::new(line, at).next_field()
}

pub fn number_at(line: &[u8], at: usize) -> Option<(u32, Cursor)>
    ensures { result ≡ number_field line.now at }
{
    LineReader::new(line, at).next_number()
}
