// A label as a record of two decimal numbers, and its digits, the most significant first.
#![tactic(auto)]

ghost use Rattle.std.specs.Prelude.{◌≡◌, ◌≤◌, ◌<◌, ◌^◌, length};
ghost use Rattle.sheet.specs.Record.{Digits, number, decimal_digits, number_digits, record_of, digits_of};
ghost use Rattle.sheet.specs.Refusal.{within, written};
ghost use Rattle.sheet.specs.Flow.{every, is_label};
ghost use Rattle.digits.specs.Digits.{digits_answer, digits_values, digits_places, label_answer, label_values};
ghost use Rattle.digits.specs.Counts.{fitting_count, counts_fit};
ghost use Rattle.digits.specs.LastPlaces.{end_digits, end_digits_of, written_before, written_last, number_start};
ghost use Rattle.digits.specs.LastPlaces.{label_start};

use checks::depth_fits;
use sheet::{Label, NUMBER_DIGITS, Refusal};

// How many digits one of a label's numbers has; nothing for a number with a digit 0 or with more than 18 digits.
fn fitting_count(number: u64) -> Option<usize>
    ensures { result ≡ fitting_count number }
{
    let mut left = NUMBER_DIGITS;
    let mut m = number;
    while 0 < m {
        if left == 0 || m % 10 == 0 {
            return None;
        }
        left -= 1;
        m /= 10;
    }
    Some(NUMBER_DIGITS - left)
}

// Numbers of so many digits make a label at the depth: no more digits than depth, and a second number only beside a
// first of 18 digits.
#[tactic(auto, unfolding(crate::specs::Counts::counts_fit))]
fn counts_fit(depth: usize, first: usize, rest: usize) -> bool
    requires { (first ≤ number_digits) × (rest ≤ number_digits) }
    ensures { result ≡ counts_fit depth first rest }
{
    first + rest <= depth && (rest == 0 || NUMBER_DIGITS <= first)
}

// The record is a label at the depth: no digit is 0, there are no more than depth, and a second number stands only
// beside a first of 18 digits.
pub fn is_label(depth: usize, label: Label) -> bool
    ensures { result ≡ is_label depth label }
{
    let Some(first) = fitting_count(label.first) else {
        return false;
    };
    let Some(rest) = fitting_count(label.rest) else {
        return false;
    };
    counts_fit(depth, first, rest)
}

// How many digits a number has; 0 has none.
pub fn count_decimal_digits(number: u64) -> usize
    ensures { result ≡ length (decimal_digits number) }
{
    let mut count = 0;
    let mut m = number;
    while 0 < m {
        count += 1;
        m /= 10;
    }
    count
}

// How many digits a label has.
pub fn count_digits(label: Label) -> usize
    ensures { result ≡ length (digits_of label) }
{
    count_decimal_digits(label.first) + count_decimal_digits(label.rest)
}

// Writes the digits of a number, of which there are count, to the first places, the last digit first.
fn put_digits(number: u64, count: usize, out: &mut [u8])
    requires count_value { count ≡ length (decimal_digits number) }
    requires count_in_bounds { count ≤ length out.old }
    ensures { out.new ≡ written (decimal_digits number) out.old }
{
    let mut left = number;
    for i in (0..count).rev() {
        out[i] = (left % 10) as u8;
        left /= 10;
    }
}

// Writes the digits of a label to the first places and answers how many there are. Refused by 2, 11, 3, in this order;
// then no place is written.
#[tactic(auto, unfolding(crate::specs::Digits::digits_answer, crate::specs::Digits::digits_places))]
pub fn write_digits(depth: usize, label: Label, out: &mut [u8]) -> Result<usize, Refusal>
    ensures answer { result ≡ digits_answer depth label (length out.old) }
    ensures values { digits_values result ≡ digits_values (digits_answer depth label (length out.old)) }
    ensures places { out.new ≡ digits_places depth label out.old }
{
    if !depth_fits(depth) {
        return Err(checks::numbered(2));
    }
    if !is_label(depth, label) {
        return Err(checks::numbered(11));
    }
    let first = count_decimal_digits(label.first);
    let rest = count_decimal_digits(label.rest);
    let count = first + rest;
    if out.len() < count {
        return Err(checks::numbered(3));
    }
    put_digits(label.first, first, out);
    put_digits(label.rest, rest, &mut out[first..]);
    Ok(count)
}

// Judges one of a label's numbers and writes its digits to the places before an end, each worked out once. Gives where
// they start, or nothing for a number with a digit 0 or with more than 18 digits; of such a number the digits after its
// last 0 are written, at most 18.
fn put_number(number: u64, end: usize, out: &mut [u8]) -> Option<usize>
    requires { (number_digits ≤ end) × (end ≤ length out.old) }
    ensures start { result ≡ number_start number end }
    ensures places { out.new ≡ written_before end (end_digits number_digits number) out.old }
{
    let mut at = end;
    let mut room = NUMBER_DIGITS;
    let mut m = number;
    while 0 < m {
        // before the digit is worked out, since the other order costs more on long labels
        if room == 0 {
            return None;
        }
        let digit = m % 10;
        if digit == 0 {
            return None;
        }
        at -= 1;
        room -= 1;
        out[at] = digit as u8;
        m /= 10;
    }
    Some(at)
}

// Judges a record as a label and writes its digits to the last places, each worked out once. Gives where they start, or
// nothing for a record that is no label at the depth; of such a record the digits that its numbers end with are
// written. A step for the flow question.
pub fn put_label(depth: usize, label: Label, out: &mut [u8]) -> Option<usize>
    requires { 36 ≤ length out.old }
    ensures start { result ≡ label_start depth label (length out.old) }
    ensures places { out.new ≡ written_last (end_digits_of label) out.old }
{
    let places = out.len();
    let rest = put_number(label.rest, places, out)?;
    let first = put_number(label.first, rest, out)?;
    if !counts_fit(depth, rest - first, places - rest) {
        return None;
    }
    Some(first)
}

// Every digit is from 1 to 9.
fn all_digits(digits: &[u8]) -> bool
    ensures { result ≡ every (within 9) digits.now }
{
    digits.iter().all(|digit| 1 <= *digit && *digit <= 9)
}

// The digits as one decimal number.
fn number_of(digits: &[u8]) -> u64
    requires { number digits.now < 2 ^ 64 }
    ensures { result ≡ number digits.now }
{
    let mut number = 0;
    for &digit in digits {
        number = number * 10 + u64::from(digit);
    }
    number
}

// The digits as a record: the first 18, then the next ones.
fn record_of(digits: &[u8]) -> Label
    requires { Digits 9 digits.now × (length digits.now ≤ 36) }
    ensures { result ≡ record_of digits.now }
{
    if digits.len() <= NUMBER_DIGITS {
        return Label {
            first: number_of(digits),
            rest: 0,
        };
    }
    Label {
        first: number_of(&digits[..NUMBER_DIGITS]),
        rest: number_of(&digits[NUMBER_DIGITS..]),
    }
}

// The label that has these digits. Refused by 2, 11, in this order.
#[tactic(auto, unfolding(crate::specs::Digits::label_answer, sheet::specs::Flow::are_digits))]
pub fn label_of(depth: usize, digits: &[u8]) -> Result<Label, Refusal>
    ensures answer { result ≡ label_answer depth digits.now }
    ensures values { label_values result ≡ label_values (label_answer depth digits.now) }
{
    if !depth_fits(depth) {
        return Err(checks::numbered(2));
    }
    if depth < digits.len() || !all_digits(digits) {
        return Err(checks::numbered(11));
    }
    Ok(record_of(digits))
}
