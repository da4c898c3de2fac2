// Dates and terms: the days from 1998-01-01, day 0, to 2097-12-31, day 36,524, and the term from a date and a count of months. Document 02, Ask 8.
// Months are counted from January 1998, month 0; those of these years are the months below 1,200. The rules say them month by month; here are closed forms.
#![tactic(auto)]

ghost use Rattle.std.specs.Prelude.{true, ◌≡◌, ◌<◌, min, ◌≤◌};
ghost use Rattle.rules.specs.Terms.{count_fits, date_exists, day_or_last, days_in_month, first_year, is_leap_year, last_end, last_year, month_length, month_start, term_from};
ghost use Rattle.dates.specs.Days.{term_meant};

// A date as it is written: year, month, 1 for January, and day. Each is judged at full width, so that such a date need not exist.
#[derive(Clone, Copy)]
pub struct Date {
    pub year: u32,
    pub month: u32,
    pub day: u32,
}

// The days of a term: its first day, and its end day, which it is without.
#[derive(Clone, Copy)]
pub struct Days {
    pub first_day: usize,
    pub end_day: usize,
}

// "Gregorian": of these years every fourth is a leap year, 2000 too, and the next hundred is not reached.
fn is_leap(year: u32) -> bool
    requires { (first_year ≤ year) × (year ≤ last_year) }
    ensures { result ≡ is_leap_year year }
{
    year % 4 == 0
}

// The days of a month: 1 is January, 12 December.
#[tactic(auto, unfolding(rules::specs::Terms::days_in_month))]
fn days_in_month(year: u32, month: u32) -> u32
    requires { (first_year ≤ year) × (year ≤ last_year) }
    ensures { (result ≡ days_in_month year month) × (28 ≤ result) × (result ≤ 31) }
{
    match month {
        2 if is_leap(year) => 29,
        2 => 28,
        4 | 6 | 9 | 11 => 30,
        _ => 31,
    }
}

// "a date that does not exist or lies outside these years": such a date is none.
#[tactic(auto, unfolding(rules::specs::Terms::date_exists))]
pub fn date_exists(date: Date) -> bool
    ensures { result ≡ date_exists date.year date.month date.day }
{
    let Date { year, month, day } = date;
    1998 <= year
        && year <= 2097
        && 1 <= month
        && month <= 12
        && 1 <= day
        && day <= days_in_month(year, month)
}

// "a count of months from 1 to 120"
#[tactic(auto, unfolding(rules::specs::Terms::count_fits))]
pub fn count_fits(months: u32) -> bool
    ensures { result ≡ count_fits months }
{
    1 <= months && months <= 120
}

// The days of month n.
fn month_length(n: u32) -> u32
    requires { n < 1200 }
    ensures { (result ≡ month_length n) × (28 ≤ result) × (result ≤ 31) }
{
    days_in_month(1998 + n / 12, n % 12 + 1)
}

// The first day of month n: years of 365 days, a day for each 29 February before it, and the days of the months before it in its year, of which five from
// March on have 153 days.
fn month_start(n: u32) -> u32
    requires { n < 1200 }
    ensures { (result ≡ month_start n) × (result < 36525) }
{
    let y = n / 12;
    let m = n % 12;
    if m < 2 {
        return y * 365 + (y + 1) / 4 + m * 31;
    }
    y * 365 + (y + 2) / 4 + (m * 153 - 9) / 5
}

// Day `day` of month n, "or that month's last day if it has no such day".
#[tactic(auto, unfolding(rules::specs::Terms::day_or_last))]
fn day_or_last(n: u32, day: u32) -> u32
    requires { (n < 1200) × (1 ≤ day) }
    ensures { (result ≡ day_or_last n day) × (result < 36525) }
{
    month_start(n) + (day.min(month_length(n)) - 1)
}

// "the same day of the later month ..; a later end is cut to 36,525": every day from month 1,200 on is later, none before it.
fn end_in(n: u32, day: u32) -> u32
    requires { 1 ≤ day }
    ensures { (result ≡ min (day_or_last n day) last_end) × (result ≤ 36525) }
{
    if 1200 <= n {
        return 36525;
    }
    day_or_last(n, day)
}

// "A term may be set from a date and a count of months": from the date's day to the same day of the month that many months later.
pub fn term_from(date: Date, months: u32) -> Days
    requires { (date_exists date.year date.month date.day ≡ true) × (count_fits months ≡ true) }
    ensures { (term_meant result ≡ term_from date.year date.month date.day months) × (result.first_day < 65536) × (result.end_day < 65536) }
{
    let n = (date.year - 1998) * 12 + (date.month - 1);
    let first = day_or_last(n, date.day);
    let end = end_in(n + months, date.day);
    Days {
        first_day: first as usize,
        end_day: end as usize,
    }
}
