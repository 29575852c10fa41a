// Decimal numbers: a value read at a position of a line, and a number written as text.
#![tactic(auto)]

ghost use Rattle.std.specs.Prelude.{◌≡◌, ◌+◌, ◌≤◌, length};
ghost use Rattle.decimal.specs.Value.{is_digit, blanks_at, most_digits, number_at, unpadded_at, value_at, found_values};
ghost use Rattle.decimal.specs.Text.{decimal_text, written_values, write_text};

// The digits are the bytes from the first of these to the second.
pub const DIGIT_ZERO: u8 = b'0';

pub const DIGIT_NINE: u8 = b'9';

// The byte that may stand in front of a value.
pub const BLANK: u8 = b' ';

// The byte between two values, and the byte that ends a line.
pub const COMMA: u8 = b',';

pub const LINE_FEED: u8 = b'\n';

// The most digits that a reader may allow: any nine fit 32 bits.
const MOST_DIGITS: u8 = 9;

// The most blanks in front of a value.
const MOST_BLANKS: usize = 8;

fn is_digit(b: u8) -> bool
    ensures { result ≡ is_digit b }
{
    b.is_ascii_digit()
}

// The number that the digits at a position write, if there are at most `most` of them, and the position after them. One
// digit more ends the search.
fn read_digits(line: &[u8], at: usize, most: u8) -> Option<(u32, usize)>
    requires { (at ≤ length line.now) × (most ≤ most_digits) }
    ensures { result ≡ number_at most line.now at }
{
    let mut value = 0;
    for (count, b) in line[at..].iter().enumerate() {
        if !is_digit(*b) {
            return Some((value, at + count));
        }
        if count == most as usize {
            return None;
        }
        value = value * 10 + (*b - DIGIT_ZERO) as u32;
    }
    Some((value, line.len()))
}

// The value whose digits begin at a position: 0 alone, or 1 to `most` digits not starting with 0.
fn unpadded_value(line: &[u8], at: usize, most: u8) -> Option<(u32, usize)>
    requires { most ≤ most_digits }
    ensures { result ≡ unpadded_at most line.now at }
{
    let b = *line.get(at)?;
    if b == DIGIT_ZERO {
        return read_digits(line, at, 1);
    }
    if is_digit(b) {
        read_digits(line, at, most)
    } else {
        None
    }
}

// Where the blanks that begin at a position end.
fn blanks_end(line: &[u8], at: usize) -> usize
    ensures { result ≡ at + blanks_at line.now at }
{
    let Some(rest) = line.get(at..) else {
        return at;
    };
    at + rest.iter().position(|b| *b != BLANK).unwrap_or(rest.len())
}

// The value at a position, and the position after it: up to MOST_BLANKS blanks, then 0 alone or 1 to `most` digits not
// starting with 0. Where `most` is over MOST_DIGITS there is none.
pub fn read_value(line: &[u8], at: usize, most: u8) -> Option<(u32, usize)>
    ensures value { result ≡ value_at most line.now at }
    ensures values { found_values result ≡ found_values (value_at most line.now at) }
{
    if MOST_DIGITS < most {
        return None;
    }
    let start = blanks_end(line, at);
    if MOST_BLANKS < start - at {
        return None;
    }
    unpadded_value(line, start, most)
}

// How many bytes n has in decimal.
pub fn decimal_length(n: u64) -> usize
    ensures { result ≡ length (decimal_text n) }
{
    let mut count = 1;
    let mut rest = n;
    while rest >= 10 {
        rest = rest / 10;
        count += 1;
    }
    count
}

// Writes n in decimal from a position on. Answers the position after it; None where it does not fit, and then nothing
// was written.
pub fn write_decimal(n: u64, out: &mut [u8], at: usize) -> Option<usize>
    ensures written { record { answer = result; buffer = out.new }
        ≡ write_text (decimal_text n) out.old at }
    ensures values { written_values result
        ≡ written_values (write_text (decimal_text n) out.old at).answer }
{
    let count = decimal_length(n);
    let room = out.len().checked_sub(at)?;
    if room < count {
        return None;
    }
    let mut end = at + count;
    let mut rest = n;
    // It goes by the digits that are left, the last one first; `end` follows.
    while rest >= 10 {
        end -= 1;
        out[end] = DIGIT_ZERO + (rest % 10) as u8;
        rest = rest / 10;
    }
    out[at] = DIGIT_ZERO + rest as u8;
    Some(at + count)
}
