// Lists of 16-bit numbers: filled from the front, and as bytes, two a number, low byte first.
#![tactic(auto)]

ghost use Rattle.std.specs.Prelude.{cond, ◌≡◌, [], ◌∷◌, ◌++◌, ◌+◌, ◌*◌, ◌<◌, ◌≤◌, length, take, drop};
ghost use Rattle.polynomial.specs.Digits.{digits};
ghost use Rattle.code.specs.Calls.{as_bytes, leaves, number_at};
ghost use Rattle.numbers.specs.List.{first_numbers, numbers_in};

// How many numbers so many bytes hold; 0, which is no list's length, where they are odd or more than 256.
pub fn numbers_in(bytes: usize) -> usize
    ensures { result ≡ numbers_in bytes }
{
    if bytes <= 256 && bytes % 2 == 0 {
        bytes / 2
    } else {
        0
    }
}

// The two bytes at `at` are set to x.
fn put(list: &mut [u8], at: usize, x: u16)
    requires { at + 2 ≤ length list.old }
    ensures { list.new ≡ take at list.old ++ digits 8 2 x ++ drop (at + 2) list.old }
{
    list[at..at + 2].copy_from_slice(&x.to_le_bytes());
}

// The numbers, as bytes.
pub fn store(list: &mut [u8], numbers: &[u16])
    requires { length list.old ≡ 2 * length numbers.now }
    ensures { list.new ≡ as_bytes numbers.now }
{
    for (i, x) in numbers.iter().enumerate() {
        put(list, 2 * i, *x);
    }
}

// The numbers, as bytes, where the answer's number n is 0.
pub fn store_when(n: u32, list: &mut [u8], numbers: &[u16])
    requires { n ≡ 0 → length list.old ≡ 2 * length numbers.now }
    ensures { list.new ≡ leaves n (as_bytes numbers.now) list.old }
{
    if n == 0 {
        store(list, numbers);
    }
}

// Number k of the bytes.
fn number_at(bytes: &[u8], k: usize) -> u16
    requires { 2 * k + 2 ≤ length bytes.now }
    ensures { result ≡ number_at bytes.now k }
{
    u16::from_le_bytes([bytes[2 * k], bytes[2 * k + 1]])
}

// The numbers of the bytes, as many as the list takes.
pub fn load(numbers: &mut [u16], bytes: &[u8])
    requires { 2 * length numbers.old ≤ length bytes.now }
    ensures { numbers.new ≡ first_numbers (length numbers.old) bytes.now }
{
    for (i, x) in numbers.iter_mut().enumerate() {
        *x = number_at(bytes, i);
    }
}

// The number i put down behind the first b of the list, unless it is to be left out: how many there are then.
pub fn note(list: &mut [u16], b: usize, i: u16, out: bool) -> usize
    requires { b < length list.old }
    ensures { (result ≤ b + 1) × (take result list.new ≡ take b list.old ++ cond out [] (i ∷ [])) }
{
    if out {
        b
    } else {
        list[b] = i;
        b + 1
    }
}
