// Small signed numbers, with no branch on their values: signs as numbers, sums, squares, sizes, ranges, and vectors kept or zeroed.
#![tactic(auto)]

ghost use Rattle.std.specs.Prelude.{◌≡◌, cond, ◌+◌, ◌*◌, ◌^◌, ◌≤◌, ◌<◌, eqb, pos, nat_abs, ◌+ℤ◌, ◌*ℤ◌, length, replicate};
ghost use Rattle.signed.specs.Signs.{sign};
ghost use Rattle.signed.specs.Vectors.{all_within};

// The sign that a bit stands for: -1 for 1, and 1 for 0. By arithmetic, since a `match` may become a jump.
pub fn sign_of(bit: u64) -> i32
    requires { bit < 2 }
    ensures { (result ≡ sign (eqb bit 1)) × (nat_abs result ≤ 1) }
{
    1 - 2 * (bit as i32)
}

// A value times a sign.
pub fn times_sign(value: i32, by: i32) -> i32
    requires { (nat_abs value < 2 ^ 16) × (nat_abs by ≤ 1) }
    ensures { result ≡ value *ℤ by }
{
    value * by
}

// The sum of two values.
pub fn plus(a: i32, b: i32) -> i32
    requires { nat_abs a + nat_abs b < 2 ^ 31 }
    ensures { result ≡ a +ℤ b }
{
    a + b
}

// The square of a value.
pub fn square(value: i32) -> u64
    requires { nat_abs value ≤ 4096 }
    ensures { result ≡ nat_abs value * nat_abs value }
{
    (value * value) as u64
}

// A sum, and the product of two values more.
pub fn plus_product(sum: i64, a: i32, b: i32) -> i64
    requires { (nat_abs sum < 2 ^ 62) × (nat_abs a ≤ 4096) × (nat_abs b ≤ 4096) }
    ensures { result ≡ sum +ℤ (a *ℤ b) }
{
    sum + (a * b) as i64
}

// The size of a number: the number without its sign. Not by `unsigned_abs`, which has an `if` on the sign.
pub fn size_of(value: i64) -> u64
    requires { nat_abs value < 2 ^ 62 }
    ensures { result ≡ nat_abs value }
{
    let sign = sign_of((value < 0) as u64) as i64;
    (value * sign) as u64
}

// Whether every value is from -bound to bound. Every value is looked at, whatever the others are.
pub fn all_within(values: &[i32], bound: u32) -> bool
    requires { bound < 2 ^ 16 }
    ensures { result ≡ all_within bound values.now }
{
    let high = bound as i32;
    let low = 0 - high;
    let mut outside = false;
    for &v in values {
        outside |= (v < low) | (high < v);
    }
    !outside
}

// A value where it is kept, else 0.
pub fn kept(value: i32, keep: bool) -> i32
    ensures { result ≡ cond keep value (pos 0) }
{
    value * (keep as i32)
}

// Keeps every value, or makes every value zero.
pub fn keep_all(values: &mut [i32], keep: bool)
    ensures { values.new ≡ cond keep values.old (replicate (length values.old) (pos 0)) }
{
    for v in values.iter_mut() {
        *v = kept(*v, keep);
    }
}

// Makes every value zero.
pub fn zero_all(values: &mut [i32])
    ensures { values.new ≡ replicate (length values.old) (pos 0) }
{
    values.fill(0);
}
