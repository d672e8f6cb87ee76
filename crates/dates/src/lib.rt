// The date of a day of a junction file. A file has a day as a number: the days since 1 January 2000, up to 65,535, which is 6 June 2179.
#![tactic(auto)]

ghost use Rattle.std.specs.Prelude.{◌≡◌, ◌+◌, ◌≤◌, ◌<◌};
ghost use Rattle.dates.specs.Dates.{is_leap_year, year_length, month_length, days_before_year, CalendarDate, number};

// A date: the year, the month from 1 to 12, and the day of the month from 1.
#[derive(Clone, Copy, Debug, PartialEq, Eq, PartialOrd, Ord)]
pub struct Date {
    pub year: u16,
    pub month: u8,
    pub day: u8,
}

// Whether a year is a leap year: divisible by 4, and by 100 only where by 400.
#[tactic(auto, unfolding(crate::specs::Dates::is_leap_year))]
fn leap_year(year: u16) -> bool
    ensures { result ≡ is_leap_year year }
{
    (year % 4 == 0) & ((year % 100 != 0) | (year % 400 == 0))
}

// How many days a year has.
#[tactic(auto, unfolding(crate::specs::Dates::year_length))]
fn year_length(year: u16) -> u16
    ensures { result ≡ year_length year }
{
    if leap_year(year) {
        return 366;
    }
    365
}

// How many days a month of a year has.
#[tactic(auto, unfolding(crate::specs::Dates::month_length, crate::specs::Dates::has_thirty))]
fn month_length(year: u16, month: u8) -> u16
    ensures { result ≡ month_length year month }
{
    match month {
        2 if leap_year(year) => 29,
        2 => 28,
        4 | 6 | 9 | 11 => 30,
        _ => 31,
    }
}

// The date before which so many days of its year come. It requires a year from 2000 on, with more days than that.
#[tactic(auto, using(crate::specs::lemmas::Steps::month_first, crate::specs::lemmas::Steps::month_next, crate::specs::lemmas::Steps::month_short, crate::specs::lemmas::Steps::twelve_months), unfolding(crate::specs::Dates::number))]
fn date_in_year(year: u16, before: u16) -> Date
    requires from2000 { 2000 ≤ year }
    requires within { before < year_length year }
    ensures calendar { CalendarDate result }
    ensures numbered { number result ≡ days_before_year year + before }
{
    let mut rest = before;
    for month in 1..=12 {
        let length = month_length(year, month);
        if rest < length {
            return Date {
                year,
                month,
                day: rest as u8 + 1,
            };
        }
        rest -= length;
    }
    unreachable!()
}

// The date of a day of a junction file: the one date of the calendar that has this number. Every day is answered, 2000-01-01 to 2179-06-06.
#[tactic(auto, using(crate::specs::lemmas::Steps::year_first, crate::specs::lemmas::Steps::year_next, crate::specs::lemmas::Steps::year_long))]
pub fn date_of(day: u16) -> Date
    ensures calendar { CalendarDate result }
    ensures numbered { number result ≡ day }
{
    let mut rest = day;
    for year in 2000..2180 {
        let length = year_length(year);
        if rest < length {
            return date_in_year(year, rest);
        }
        rest -= length;
    }
    unreachable!()
}
