//! Digits of numbers, as bytes.
ghost use Rattle.std.specs.Prelude.{◌*◌, ◌+◌, ◌/◌, ◌%◌, ◌≡◌, ◌≤◌, ◌<◌, decimal, slice_index, take};
ghost use Rattle.hex.specs.Hex.{upper_digits};
ghost use Rattle.rds_tool.specs.{Listing.hex_digits, Inside.Digits.last_digits};

/// A number of at most eight digits with zeros after them, so that it has eight, and how many are its own.
#[inline(always)]
pub fn left_aligned(n: u64) -> (u64, usize)
    requires { n < 100000000 }
    ensures digits { take result.1 (last_digits 8 result.0) ≡ decimal n }
    ensures small { result.0 < 100000000 }
    ensures few { result.1 ≤ 8 }
{
    if n >= 10_000_000 {
        (n, 8)
    } else if n >= 1_000_000 {
        (n * 10, 7)
    } else if n >= 100_000 {
        (n * 100, 6)
    } else if n >= 10_000 {
        (n * 1000, 5)
    } else if n >= 1000 {
        (n * 10_000, 4)
    } else if n >= 100 {
        (n * 100_000, 3)
    } else if n >= 10 {
        (n * 1_000_000, 2)
    } else {
        (n * 10_000_000, 1)
    }
}

/// The eight digits of a number, with zeros before it.
#[inline(always)]
pub fn decimal_digits(n: u64) -> [u8; 8]
    requires { n < 100000000 }
    ensures { result ≡ last_digits 8 n }
{
    let n = n as u32;
    let [a, b, c, d] = four_decimals(n / 10_000);
    let [e, f, g, h] = four_decimals(n % 10_000);
    [a, b, c, d, e, f, g, h]
}

#[inline(always)]
fn four_decimals(n: u32) -> [u8; 4]
    requires { n < 10000 }
    ensures { result ≡ last_digits 4 n }
{
    let [a, b] = two_decimals(n / 100);
    let [c, d] = two_decimals(n % 100);
    [a, b, c, d]
}

/// The two digits of a number. A table takes half the time of divisions.
#[inline(always)]
fn two_decimals(n: u32) -> [u8; 2]
    requires { n < 100 }
    ensures { result ≡ last_digits 2 n }
{
    const PAIRS: [u8; 200] = *b"0001020304050607080910111213141516171819\
        2021222324252627282930313233343536373839\
        4041424344454647484950515253545556575859\
        6061626364656667686970717273747576777879\
        8081828384858687888990919293949596979899";
    let at = 2 * n as usize;
    [PAIRS[at], PAIRS[at + 1]]
}

/// The four hexadecimal digits of an information word.
#[inline(always)]
pub fn word_digits(n: u16) -> [u8; 4]
    ensures { result ≡ hex_digits 4 n }
{
    let n = u32::from(n);
    [
        hex_digit(n / 16 / 16 / 16),
        hex_digit(n / 16 / 16),
        hex_digit(n / 16),
        hex_digit(n),
    ]
}

/// The seven hexadecimal digits of an error mask, which has 26 bits.
#[inline(always)]
pub fn mask_digits(n: u32) -> [u8; 7]
    ensures { result ≡ hex_digits 7 n }
{
    [
        hex_digit(n / 16 / 16 / 16 / 16 / 16 / 16),
        hex_digit(n / 16 / 16 / 16 / 16 / 16),
        hex_digit(n / 16 / 16 / 16 / 16),
        hex_digit(n / 16 / 16 / 16),
        hex_digit(n / 16 / 16),
        hex_digit(n / 16),
        hex_digit(n),
    ]
}

/// The last digit of a number to the base 16, in upper case.
#[inline(always)]
fn hex_digit(n: u32) -> u8
    ensures { result ≡ slice_index upper_digits (n % 16) }
{
    const DIGITS: [u8; 16] = *b"0123456789ABCDEF";
    DIGITS[(n % 16) as usize]
}
