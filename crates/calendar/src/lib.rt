// Gregorian dates of the years 1 to 4095.
#![tactic(auto)]

ghost use Rattle.std.specs.Prelude.{◌≡◌, ◌≤◌};
ghost use Rattle.calendar.specs.Calendar.{is_leap, month_length, is_date, before};

#[derive(Clone, Copy, PartialEq, Eq, PartialOrd, Ord)]
pub struct Date {
    pub year: u32,
    pub month: u32,
    pub day: u32,
}

#[tactic(auto, unfolding(crate::specs::Calendar::is_leap))]
fn is_leap(year: u32) -> bool
    ensures { result ≡ is_leap year }
{
    year % 4 == 0 && (year % 100 != 0 || year % 400 == 0)
}

#[tactic(auto, unfolding(crate::specs::Calendar::month_length))]
fn month_length(year: u32, month: u32) -> u32
    requires { month ≤ 12 }
    ensures { result ≡ month_length year month }
{
    if month == 2 {
        if is_leap(year) { 29 } else { 28 }
    } else {
        30 + (month + month / 8) % 2
    }
}

#[tactic(auto, unfolding(crate::specs::Calendar::is_date))]
pub fn is_date(d: Date) -> bool
    ensures { result ≡ is_date d }
{
    1 <= d.year
        && d.year <= 4095
        && 1 <= d.month
        && d.month <= 12
        && 1 <= d.day
        && d.day <= month_length(d.year, d.month)
}

// Whether a is earlier than b.
#[tactic(auto, unfolding(crate::specs::Calendar::before))]
pub fn is_before(a: Date, b: Date) -> bool
    ensures { result ≡ before a b }
{
    a < b
}
