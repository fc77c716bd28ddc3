// Digits at a place of a slice. The caller has tested that they are there, or that there is room for them.
ghost use Rattle.std.specs.Prelude.{◌≡◌, true, ◌+◌, ◌-◌, ◌≤◌, ◌<◌, length, take, drop};
ghost use Rattle.std.proofs.lemmas.List.Edits.{sets};
ghost use Rattle.words.specs.Decimal.{all_digits, value_of, in_digits, places_up_to, decimal};

// The value of a digit.
pub fn digit(b: u8) -> u64
    requires { 48 ≤ b }
    ensures { result ≡ b - 48 }
{
    (b - b'0') as u64
}

// The value of `width` digits from `at` on. Any 19 digits fit 64 bits.
pub fn field(s: &[u8], at: usize, width: usize) -> u64
    requires width_in_bounds { at + width ≤ length s.now }
    requires width_bound { width ≤ 19 }
    requires s_value { all_digits (take width (drop at s.now)) ≡ true }
    ensures { result ≡ value_of (take width (drop at s.now)) }
{
    let mut value: u64 = 0;
    for b in &s[at..at + width] {
        value = value * 10 + digit(*b);
    }
    value
}

pub fn put_two(out: &mut [u8], at: usize, n: u32)
    requires n_bound { n < 100 }
    requires at_in_bounds { at + 2 ≤ length out.old }
    ensures { out.new ≡ sets out.old at (in_digits 2 n) }
{
    out[at] = b'0' + (n / 10) as u8;
    out[at + 1] = b'0' + (n % 10) as u8;
}

pub fn put_four(out: &mut [u8], at: usize, n: u32)
    requires n_bound { n < 10000 }
    requires at_in_bounds { at + 4 ≤ length out.old }
    ensures { out.new ≡ sets out.old at (in_digits 4 n) }
{
    put_two(out, at, n / 100);
    put_two(out, at + 2, n % 100);
}

pub fn put_nine(out: &mut [u8], at: usize, n: u32)
    requires n_bound { n < 1000000000 }
    requires at_in_bounds { at + 9 ≤ length out.old }
    ensures { out.new ≡ sets out.old at (in_digits 9 n) }
{
    out[at] = b'0' + (n / 100000000) as u8;
    put_four(out, at + 1, n / 10000 % 10000);
    put_four(out, at + 5, n % 10000);
}

// How many digits a count has, counted one by one.
fn counted_places(n: u64) -> usize
    ensures { (result ≡ places_up_to 20 n) × (result ≤ 20) }
{
    let mut more: usize = 0;
    let mut rest = n;
    while rest >= 10 {
        rest /= 10;
        more += 1;
    }
    more + 1
}

// How many digits a count has. A count of nanoseconds that is past its first four months has 17 or more.
// With `checked_ilog10` 50 million long counts are put in 1.27 s, not in 0.12 s.
pub fn places(n: u64) -> usize
    ensures { (result ≡ places_up_to 20 n) × (result ≤ 20) }
{
    if n < 10_000_000_000_000_000 {
        return counted_places(n);
    }
    if n < 100_000_000_000_000_000 {
        return 17;
    }
    if n < 1_000_000_000_000_000_000 {
        return 18;
    }
    if n < 10_000_000_000_000_000_000 {
        19
    } else {
        20
    }
}

// The last `width` digits of a number, one by one.
fn put_ones(out: &mut [u8], at: usize, width: usize, n: u64)
    requires { at + width ≤ length out.old }
    ensures { out.new ≡ sets out.old at (in_digits width n) }
{
    let mut rest = n;
    for left in (0..width).rev() {
        out[at + left] = b'0' + (rest % 10) as u8;
        rest /= 10;
    }
}

// The last `width` digits of a number: four by four from the end, and then those in front.
// With `rchunks_exact_mut(4)` the digits in front would be a second slice, and the fours a loop all the same.
pub fn put_last(out: &mut [u8], at: usize, width: usize, n: u64)
    requires { at + width ≤ length out.old }
    ensures { out.new ≡ sets out.old at (in_digits width n) }
{
    let mut left = width;
    let mut rest = n;
    while left >= 4 {
        left -= 4;
        put_four(out, at + left, (rest % 10000) as u32);
        rest /= 10000;
    }
    put_ones(out, at, left, rest);
}

// A count in its fewest digits. Returns where they end.
pub fn put_count(out: &mut [u8], at: usize, n: u64) -> usize
    requires { at + 20 ≤ length out.old }
    ensures { (result ≡ at + length (decimal n)) × (out.new ≡ sets out.old at (decimal n)) }
{
    let width = places(n);
    put_last(out, at, width, n);
    at + width
}
