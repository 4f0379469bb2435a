// Words of 64 bits: fields cut out of them, the product of two words, and the order of numbers of two digits.
// No function branches on its data.
#![tactic(auto)]

ghost use Rattle.std.specs.Prelude.{◌≡◌, ◌+◌, ◌-◌, ◌*◌, ◌/◌, ◌%◌, ◌^◌, ◌≤◌, ◌<◌, min, ltb};
ghost use Rattle.arithmetic.specs.Words.{value, bit};

// 2^62: 1 in units of 2^-62, and above all that 62 bits can hold.
pub const TWO_62: u64 = 0x4000_0000_0000_0000;

pub const TWO_63: u64 = 2 * TWO_62;

// The number high * 2^BITS + low: of base 2^64 the product of two words, and of base 2^62 a draw, or a threshold.
#[derive(Clone, Copy)]
pub struct Wide<const BITS: u32> {
    pub high: u64,
    pub low: u64,
}

// So many low bits of a word.
pub fn low_bits<const BITS: u32>(word: u64) -> u64
    requires { BITS < 64 }
    ensures { result ≡ word % 2 ^ BITS }
{
    word & ((1 << BITS) - 1)
}

// The bit of a word at a place, counted from the lowest.
pub fn bit_at<const PLACE: u32>(word: u64) -> u64
    requires { PLACE < 64 }
    ensures { result ≡ word / 2 ^ PLACE % 2 }
{
    (word >> PLACE) & 1
}

// The high word of a product.
pub fn high_word(a: u64, b: u64) -> u64
    ensures { result ≡ a * b / 2 ^ 64 }
{
    ((a as u128 * b as u128) >> 64) as u64
}

// The product of two words. Its low word costs no multiplication more.
pub fn product(a: u64, b: u64) -> Wide<64>
    ensures { value result ≡ a * b }
{
    Wide {
        high: high_word(a, b),
        low: a.wrapping_mul(b),
    }
}

// The whole part of a * b / 2^62.
pub fn mul_shift62(a: u64, b: u64) -> u64
    requires { b < 2 ^ 62 }
    ensures { result ≡ a * b / 2 ^ 62 }
{
    high_word(a, 4 * b)
}

// The whole part of a * a / 2^62.
pub fn square_shift62(a: u64) -> u64
    requires { a < 2 ^ 63 }
    ensures { result ≡ a * a / 2 ^ 62 }
{
    let d = 2 * a;
    high_word(d, d)
}

// a * a / 2^62, rounded: the high word of the doubled factors, and the top bit of the low word, which is a half.
pub fn square_round62(a: u64) -> u64
    requires { a ≤ 2 ^ 62 }
    ensures { result ≡ (a * a + 2 ^ 61) / 2 ^ 62 }
{
    let d = 2 * a;
    high_word(d, d) + (d.wrapping_mul(d) >> 63)
}

// The whole part of a * b / 2^22.
pub fn mul_shift22(a: u64, b: u64) -> u64
    requires { a * b < 2 ^ 86 }
    ensures { result ≡ a * b / 2 ^ 22 }
{
    ((a as u128 * b as u128) >> 22) as u64
}

// The smaller of two words, by arithmetic: `min` may become a jump.
pub fn smaller(a: u64, b: u64) -> u64
    ensures { result ≡ min a b }
{
    let first = (a <= b) as u64;
    a * first + b * (1 - first)
}

// 1 where the number a is below the number b, else 0. The low digits decide whether equal high digits are enough: no jump.
pub fn less<const BITS: u32>(a: Wide<BITS>, b: Wide<BITS>) -> u64
    requires { (a.low < 2 ^ BITS) × (b.high < 2 ^ 64 - 1) × (b.low < 2 ^ BITS) }
    ensures { result ≡ bit (ltb (value a.entry) (value b.entry)) }
{
    let borrow = (a.low < b.low) as u64;
    (a.high < b.high + borrow) as u64
}
