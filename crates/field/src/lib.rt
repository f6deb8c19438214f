// The fields of a header line, taken in order by a cursor.
#![tactic(auto)]

ghost use Rattle.std.specs.Prelude.{◌≡◌};
ghost use Rattle.field.specs.Fields.{field_from, number_field, version_field, count_field, decimal_field};

use numeral::Class;

// The place in a line after the last field taken.
#[derive(Clone, Copy)]
pub struct Cursor {
    pub at: usize,
}

// The next field stands from start to end; next reads on from there.
#[derive(Clone, Copy)]
pub struct Field {
    pub start: usize,
    pub end: usize,
    pub next: Cursor,
}

// The next field, and the number or the like that it holds, are taken by value with the cursor behind them (document 01, list of forms by place).
impl Cursor {
    // The next field: past the spaces, up to the next space or the line's end.
    #[tactic(auto, unfolding(crate::specs::Fields::field_from))]
    pub fn field(self, line: &[u8]) -> Option<Field>
        ensures { result ≡ field_from line.now self.at }
    {
        let at = self.at;
        let start = numeral::run_end(Class::Space, line, at);
        let end = numeral::run_end(Class::Other, line, start);
        if start == end {
            return None;
        }
        Some(Field {
            start,
            end,
            next: Cursor { at: end },
        })
    }

    #[tactic(auto, unfolding(crate::specs::Fields::number_field))]
    pub fn number(self, line: &[u8]) -> Option<(u32, Cursor)>
        ensures { result ≡ number_field line.now self.at }
    {
        let Field { start, end, next } = self.field(line)?;
        let n = numeral::number_of(&line[start..end])?;
        Some((n, next))
    }

    #[tactic(auto, unfolding(crate::specs::Fields::version_field))]
    pub fn version(self, line: &[u8]) -> Option<(u32, Cursor)>
        ensures { result ≡ version_field line.now self.at }
    {
        let Field { start, end, next } = self.field(line)?;
        let n = numeral::version_of(&line[start..end])?;
        Some((n, next))
    }

    // None stands for -1.
    #[tactic(auto, unfolding(crate::specs::Fields::count_field))]
    pub fn count(self, line: &[u8]) -> Option<(Option<u32>, Cursor)>
        ensures { result ≡ count_field line.now self.at }
    {
        let Field { start, end, next } = self.field(line)?;
        let text = &line[start..end];
        if numeral::is_minus_one(text) {
            return Some((None, next));
        }
        let n = numeral::number_of(text)?;
        Some((Some(n), next))
    }

    // The cursor behind a decimal number that is n.
    #[tactic(auto, unfolding(crate::specs::Fields::decimal_field))]
    pub fn decimal(self, line: &[u8], n: u32) -> Option<Cursor>
        ensures { result ≡ decimal_field n line.now self.at }
    {
        let Field { start, end, next } = self.field(line)?;
        if numeral::decimal_is(&line[start..end], n) {
            Some(next)
        } else {
            None
        }
    }
}
