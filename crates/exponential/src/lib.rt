// The exponential of document 01, its squarings rounded by S-7, in units of 2^-62.
#![tactic(auto)]

ghost use Rattle.std.specs.Prelude.{◌≡◌, ◌+◌, ◌-◌, ◌*◌, ◌/◌, ◌^◌, ◌≤◌, ◌<◌, length, get_or};
ghost use Rattle.std.proofs.lemmas.List.Edits.{sets};
ghost use Rattle.read_list.specs.Entries.{places_down};
ghost use Rattle.exponential.specs.Exponential.{polynomial, is_polynomial, evaluate, squared, squarings};
ghost use Rattle.exponential.specs.Exponential.{exp_scaled, exp_or_refusal};

// R at deviation 215.
pub const RECIPROCAL_215: u64 = 3269134179596076729;

// The largest N.
pub const LIMIT: u64 = 5534960;

// What the exponential by n alone gives where n is refused: 2^63 + 12, which is no value of e. C gets this one number.
const REFUSED: u64 = arithmetic::TWO_63 + refused::Refusal::Exponent as u64;

// The words of the polynomial table, and the place of the last one.
pub const POLYNOMIAL_WORDS: usize = 21;

const LAST: usize = POLYNOMIAL_WORDS - 1;

const POLYNOMIAL: [u64; POLYNOMIAL_WORDS] = [
    4611686018427387904,
    4611686018427387904,
    2305843009213693952,
    768614336404564650,
    192153584101141162,
    38430716820228232,
    6405119470038038,
    915017067148291,
    114377133393536,
    12708570377059,
    1270857037705,
    115532457973,
    9627704831,
    740592679,
    52899477,
    3526631,
    220414,
    12965,
    720,
    37,
    1,
];

// Whether a lent table is the polynomial table. It is compared as an array, of which the compiler knows the length: it unrolls that, and
// of slices makes a loop.
pub fn is_polynomial(table: &[u64]) -> bool
    ensures { result ≡ is_polynomial table.now }
{
    match <&[u64; POLYNOMIAL_WORDS]>::try_from(table) {
        Ok(words) => *words == POLYNOMIAL,
        Err(_) => false,
    }
}

// One step of the evaluation: the next entry, less the whole part of a * v / 2^62.
fn next_value(entry: u64, a: u64, v: u64) -> u64
    requires { (a ≤ entry) × (entry ≤ 2 ^ 62) × (v < 2 ^ 62) }
    ensures { result ≡ entry - a * v / 2 ^ 62 }
{
    entry - arithmetic::mul_shift62(a, v)
}

// One squaring, rounded.
fn square(a: u64) -> u64
    requires { a ≤ 2 ^ 62 }
    ensures { (result ≡ squared a) × (result ≤ 2 ^ 62) }
{
    arithmetic::square_round62(a)
}

// The 64th power, by six squarings.
fn power64(first: u64) -> u64
    requires { first ≤ 2 ^ 62 }
    ensures { (result ≡ squarings 6 first) × (result ≤ 2 ^ 62) }
{
    let mut a = first;
    for _ in 0..6u32 {
        a = square(a);
    }
    a
}

// The exponential over a lent polynomial table, for the number R of a divisor.
#[derive(Clone, Copy)]
pub struct Exponential<'a> {
    pub table: &'a [u64],
    pub reciprocal: u64,
    ghost is_polynomial: { table.now ≡ polynomial },
}

impl Exponential<'_> {
    // e(n). The entries that are read are listed from the start of a list on, and the rest of the list is unchanged.
    #[inline(always)]
    pub fn listed(self, n: u64, list: &mut [u32]) -> u64
        requires { (n * self.reciprocal < 2 ^ 84) × (21 ≤ length list.old) }
        ensures { (result ≡ exp_scaled self.entry.table.now self.entry.reciprocal n)
            × (result ≤ 2 ^ 62)
            × (list.new ≡ sets list.old 0 (places_down 4 21)) }
    {
        exp_listed(self.table, self.reciprocal, n, list)
    }
}

// The same of a table and R, which so are handed over in registers: by the struct, in memory, a draw takes 1.08 of the time.
#[inline(never)]
fn exp_listed(table: &[u64], reciprocal: u64, n: u64, list: &mut [u32]) -> u64
    requires { (table.now ≡ polynomial) × (n * reciprocal < 2 ^ 84) × (21 ≤ length list.old) }
    ensures { (result ≡ exp_scaled table.now reciprocal n)
        × (result ≤ 2 ^ 62)
        × (list.new ≡ sets list.old 0 (places_down 4 21)) }
{
    let v = arithmetic::mul_shift22(n, reciprocal);
    let a = evaluate(table, v, list);
    power64(a)
}

// The polynomial at v, from entry 20 down to entry 0. Each entry is listed where it is read.
#[inline(always)]
fn evaluate(table: &[u64], v: u64, list: &mut [u32]) -> u64
    requires { (table.now ≡ polynomial) × (v < 2 ^ 62) × (21 ≤ length list.old) }
    ensures { (result ≡ evaluate table.now v 20 (get_or table.now 20 0))
        × (result ≤ 2 ^ 62)
        × (list.new ≡ sets list.old 0 (places_down 4 21)) }
{
    let mut a: u64 = 0;
    for j in (0..POLYNOMIAL_WORDS).rev() {
        let entry = read_list::listed(table, read_list::POLYNOMIAL, j, &mut list[LAST - j]);
        a = next_value(entry, a, v);
    }
    a
}

// The exponential by n alone: e(n), or 2^63 + 12 (refusal 12) where n is above 5,534,960. Nobody lends its table: what is listed is thrown
// away, and the table becomes constants of the machine code, since the evaluation is inlined.
pub fn exp_or_refusal(n: u64) -> u64
    ensures { result ≡ exp_or_refusal n }
{
    if LIMIT < n {
        return REFUSED;
    }
    let v = arithmetic::mul_shift22(n, RECIPROCAL_215);
    let mut list = [0; POLYNOMIAL_WORDS];
    let a = evaluate(&POLYNOMIAL, v, &mut list);
    power64(a)
}
