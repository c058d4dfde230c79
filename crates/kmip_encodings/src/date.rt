//! Date-Times (KMIP 1.0, 9.1.1.4) as texts of ISO 8601.
ghost use Rattle.std.specs.Prelude.{◌≡◌, ◌+◌, ◌<◌, ◌≤◌, ◌%◌, ◌^◌, length, IfSome, IsAscii};
ghost use Rattle.kmip_encodings.specs.Dates.{is_leap_year, days_in_month, is_civil, days_before};
ghost use Rattle.kmip_encodings.specs.Dates.{days_from_march, civil_number, two_at, has_marks};
ghost use Rattle.kmip_encodings.specs.Dates.{seconds_of, signed_zone, offset_in, zone_of, in_utc};
ghost use Rattle.kmip_encodings.specs.Dates.{utc_number, number_in};
ghost use Rattle.kmip_encodings.specs.Dates.{fields_in, civil_in, date_number, year_of_era};
ghost use Rattle.kmip_encodings.specs.Dates.{day_of_year, month_of, civil_at, civil_of_day};
ghost use Rattle.kmip_encodings.specs.Dates.{civil_of, two, civil_text, march_seconds};

/// The seconds from 1 March of the year 0 to 1970.
const MARCH_SECONDS: u64 = 62_162_035_200;

/// A date and a time of day, as numbers that need not be in the calendar's ranges.
#[derive(Clone, Copy, PartialEq, Eq, Debug, Drop)]
pub(crate) struct Civil {
    pub(crate) year: u64,
    pub(crate) month: u64,
    pub(crate) day: u64,
    pub(crate) hour: u64,
    pub(crate) minute: u64,
    pub(crate) second: u64,
}

fn is_leap_year(year: u64) -> bool
    ensures { result ≡ is_leap_year year }
{
    year % 4 == 0 && (year % 100 != 0 || year % 400 == 0)
}

fn days_in_month(year: u64, month: u64) -> u64
    ensures { result ≡ days_in_month year month }
{
    match month {
        2 => if is_leap_year(year) { 29 } else { 28 },
        4 | 6 | 9 | 11 => 30,
        _ => 31,
    }
}

fn is_civil(civil: Civil) -> bool
    ensures { result ≡ is_civil civil }
{
    1 <= civil.year
        && 1 <= civil.month
        && civil.month <= 12
        && 1 <= civil.day
        && civil.day <= days_in_month(civil.year, civil.month)
        && civil.hour < 24
        && civil.minute < 60
        && civil.second < 60
}

/// The days before the first of a month, both counted from March.
fn days_before(year: u64, month: u64) -> u64
    requires year { year < 10000 }
    requires month { month < 1000 }
    ensures { result ≡ days_before year month }
{
    365 * year + year / 4 - year / 100 + year / 400 + (153 * month + 2) / 5
}

/// The days from 1 March of the year 0 to a date.
fn days_from_march(year: u64, month: u64, day: u64) -> u64
    requires year { year < 10000 }
    requires month { month < 100 }
    requires day { day < 100 }
    ensures { result ≡ days_from_march year month day }
{
    if month < 3 {
        days_before(year.saturating_sub(1), month + 9) + day.saturating_sub(1)
    } else {
        days_before(year, month - 3) + day.saturating_sub(1)
    }
}

/// The number of a date and a time of day.
fn civil_number(civil: Civil) -> u64
    requires year { civil.year < 10000 }
    requires month { civil.month < 100 }
    requires day { civil.day < 100 }
    requires hour { civil.hour < 100 }
    requires minute { civil.minute < 100 }
    requires second { civil.second < 100 }
    ensures { result ≡ civil_number civil }
{
    let days = days_from_march(civil.year, civil.month, civil.day);
    let seconds = days * 86400 + civil.hour * 3600 + civil.minute * 60 + civil.second;
    seconds.wrapping_sub(MARCH_SECONDS)
}

/// The number of the two digits at a place.
fn two_at(text: &[u8], at: usize) -> Option<u64>
    requires { at + 1 < length text.now }
    ensures value { result ≡ two_at text.now at }
    ensures range { IfSome result (λ n. n < 100) }
{
    let tens = text[at];
    let ones = text[at + 1];
    if tens.is_ascii_digit() && ones.is_ascii_digit() {
        Some((tens - b'0') as u64 * 10 + (ones - b'0') as u64)
    } else {
        None
    }
}

/// The seconds of hours and minutes, where they are less than a day.
fn seconds_of(hours: u64, minutes: u64) -> Option<u64>
    requires hours { hours < 100 }
    requires minutes { minutes < 100 }
    ensures { result ≡ seconds_of hours minutes }
{
    if hours < 24 && minutes < 60 {
        Some(hours * 3600 + minutes * 60)
    } else {
        None
    }
}

fn signed_zone(sign: u8, seconds: u64) -> Option<(bool, u64)>
    ensures { result ≡ signed_zone sign seconds }
{
    match sign {
        b'+' => Some((true, seconds)),
        b'-' => Some((false, seconds)),
        _ => None,
    }
}

fn offset_in(rest: &[u8]) -> Option<(bool, u64)>
    requires { length rest.now ≡ 6 }
    ensures { result ≡ offset_in rest.now }
{
    let hours = two_at(rest, 1)?;
    let minutes = two_at(rest, 4)?;
    signed_zone(rest[0], seconds_of(hours, minutes)?)
}

#[tactic(auto, unfolding(crate::specs::Dates::zone_of))]
/// Whether a zone is ahead of UTC, and by how many seconds it is ahead or behind.
fn zone_of(rest: &[u8]) -> Option<(bool, u64)>
    ensures { result ≡ zone_of rest.now }
{
    if rest == b"Z".as_slice() {
        return Some((false, 0));
    }
    if rest.len() == 6 && rest[3] == b':' {
        offset_in(rest)
    } else {
        None
    }
}

fn in_utc(number: u64, zone: (bool, u64)) -> u64
    ensures { result ≡ in_utc number zone }
{
    if zone.0 {
        number.wrapping_sub(zone.1)
    } else {
        number.wrapping_add(zone.1)
    }
}

fn utc_number(civil: Civil, zone: Option<(bool, u64)>) -> Option<u64>
    requires year { civil.year < 10000 }
    requires month { civil.month < 100 }
    requires day { civil.day < 100 }
    requires hour { civil.hour < 100 }
    requires minute { civil.minute < 100 }
    requires second { civil.second < 100 }
    ensures { result ≡ utc_number civil zone }
{
    Some(in_utc(civil_number(civil), zone?))
}

fn has_marks(text: &[u8]) -> bool
    ensures { result ≡ has_marks text.now }
{
    text.len() >= 20
        && text[4] == b'-'
        && text[7] == b'-'
        && text[10] == b'T'
        && text[13] == b':'
        && text[16] == b':'
}

fn fields_in(text: &[u8]) -> Option<Civil>
    requires { 20 ≤ length text.now }
    ensures value { result ≡ fields_in text.now }
    ensures year { IfSome result (λ c. c.year < 10000) }
    ensures month { IfSome result (λ c. c.month < 100) }
    ensures day { IfSome result (λ c. c.day < 100) }
    ensures hour { IfSome result (λ c. c.hour < 100) }
    ensures minute { IfSome result (λ c. c.minute < 100) }
    ensures second { IfSome result (λ c. c.second < 100) }
{
    let century = two_at(text, 0)?;
    let year = two_at(text, 2)?;
    let month = two_at(text, 5)?;
    let day = two_at(text, 8)?;
    let hour = two_at(text, 11)?;
    let minute = two_at(text, 14)?;
    let second = two_at(text, 17)?;
    Some(Civil {
        year: century * 100 + year,
        month,
        day,
        hour,
        minute,
        second,
    })
}

#[tactic(auto, unfolding(crate::specs::Dates::civil_in))]
fn civil_in(text: &[u8]) -> Option<Civil>
    ensures value { result ≡ civil_in text.now }
    ensures length { IfSome result (λ _. 20 ≤ length text.now) }
    ensures year { IfSome result (λ c. c.year < 10000) }
    ensures month { IfSome result (λ c. c.month < 100) }
    ensures day { IfSome result (λ c. c.day < 100) }
    ensures hour { IfSome result (λ c. c.hour < 100) }
    ensures minute { IfSome result (λ c. c.minute < 100) }
    ensures second { IfSome result (λ c. c.second < 100) }
{
    if !has_marks(text) {
        return None;
    }
    let civil = fields_in(text)?;
    Some(civil)
}

#[tactic(auto, unfolding(crate::specs::Dates::number_in))]
/// The number of a date and a time of day with what stands after it.
fn number_in(civil: Civil, rest: &[u8]) -> Option<u64>
    requires year { civil.year < 10000 }
    requires month { civil.month < 100 }
    requires day { civil.day < 100 }
    requires hour { civil.hour < 100 }
    requires minute { civil.minute < 100 }
    requires second { civil.second < 100 }
    ensures { result ≡ number_in civil rest.now }
{
    if is_civil(civil) {
        utc_number(civil, zone_of(rest))
    } else {
        None
    }
}

#[tactic(auto, unfolding(crate::specs::Dates::date_number))]
/// The number of a Date-Time (KMIP 1.0, 9.1.1.4) that is given as a date from the year 1 to the year
/// 9999 and a time of day, as `2001-01-01T10:00:00+00:00`, `2001-01-01T12:00:00+02:00` or
/// `2001-01-01T10:00:00Z`: the eight bytes of the signed seconds since 1970. `None` of another text.
pub fn date_number(text: &[u8]) -> Option<u64>
    ensures { result ≡ date_number text.now }
{
    let civil = civil_in(text)?;
    number_in(civil, &text[19..])
}

fn year_of_era(day: u64) -> u64
    requires { day < 146097 }
    ensures value { result ≡ year_of_era day }
    ensures range { result < 1000 }
{
    (day - day / 1460 + day / 36524).saturating_sub(day / 146096) / 365
}

fn day_of_year(day: u64, year: u64) -> u64
    requires day { day < 146097 }
    requires year { year < 1000 }
    ensures value { result ≡ day_of_year day year }
    ensures range { result < 146097 }
{
    day.saturating_sub((365 * year + year / 4).saturating_sub(year / 100))
}

fn month_of(month: u64) -> u64
    requires { month < 2 ^ 32 }
    ensures { result ≡ month_of month }
{
    if month < 10 { month + 3 } else { month - 9 }
}

fn civil_at(year: u64, day: u64, month: u64, second: u64) -> Civil
    requires year { year < 2 ^ 63 }
    requires day { day < 146097 }
    requires month { month < 146097 }
    requires second { second < 86400 }
    ensures { result ≡ civil_at year day month second }
{
    Civil {
        year: if month < 10 { year } else { year + 1 },
        month: month_of(month),
        day: day.saturating_sub((153 * month + 2) / 5) + 1,
        hour: second / 3600,
        minute: second / 60 % 60,
        second: second % 60,
    }
}

fn civil_of_day(era: u64, day: u64, second: u64) -> Civil
    requires era { era < 2 ^ 48 }
    requires day { day < 146097 }
    requires second { second < 86400 }
    ensures { result ≡ civil_of_day era day second }
{
    let year = year_of_era(day);
    let rest = day_of_year(day, year);
    civil_at(era * 400 + year, rest, (5 * rest + 2) / 153, second)
}

#[tactic(auto, unfolding(crate::specs::Dates::civil_of))]
/// The date and the time of day of a number.
pub(crate) fn civil_of(number: u64) -> Civil
    ensures { result ≡ civil_of number }
{
    let seconds = number.wrapping_add(MARCH_SECONDS);
    let day = seconds / 86400;
    civil_of_day(day / 146097, day % 146097, seconds % 86400)
}
