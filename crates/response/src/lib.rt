// The response of document 01. Nothing branches on a word, a key value or y.
#![tactic(auto)]

ghost use Rattle.std.specs.Prelude.{◌≡◌, true, ◌∷◌, ◌++◌, ◌+◌, ◌*◌, ◌^◌, ◌≤◌, ◌<◌, length, nat_abs, ◌+ℤ◌, ◌*ℤ◌};
ghost use Rattle.std.proofs.lemmas.List.Edits.{sets};
ghost use Rattle.arithmetic.specs.Words.{bit};
ghost use Rattle.read_list.specs.Entries.{entry, places_up};
ghost use Rattle.signed.specs.Vectors.{all_within, square_sum, inner_product};
ghost use Rattle.exponential.specs.Exponential.{exp_scaled, limit};
ghost use Rattle.challenge_product.specs.Product.{output_bound, product, product_entries};
ghost use Rattle.response.specs.Response.{noise_bound, response_bound, subtracts, response_of, response_z};
ghost use Rattle.response.specs.Response.{is_bounded, measures_of, response_bit, respond_list_length, responded_by};

use acceptance::Measures;
use challenge_product::Factors;
use exponential::Exponential;

// The largest size of a value of y.
pub const NOISE_BOUND: u32 = 2815;

// The largest size of a coefficient of z1 in a response that is accepted.
const COEFFICIENT_LIMIT: u32 = 2100;

// The words of a response.
pub const WORDS: usize = 3;

// Where its entries of the key begin, behind the degree, and how many entries it lists beside them.
const KEY_AT: usize = 1;

pub const OTHER_ENTRIES: usize = KEY_AT + WORDS + acceptance::ENTRIES;

// The answer of a response: its bit, and the entries listed, which a rejected one has too.
#[derive(Clone, Copy)]
pub struct Answer {
    pub bit: bool,
    pub entries: usize,
}

// The sum of squares Z of a response, and its sum of products I with the challenge product.
#[derive(Clone, Copy)]
pub struct Sums {
    pub norm: u64,
    pub inner: i64,
}

// One value of the response: y and the product with its sign.
fn response_at(y: i32, sc: i32, sign: i32) -> i32
    requires { (nat_abs y ≤ noise_bound) × (nat_abs sc ≤ output_bound) × (nat_abs sign ≤ 1) }
    ensures { (result ≡ y +ℤ (sc *ℤ sign)) × (nat_abs result ≤ response_bound) }
{
    signed::plus(y, signed::times_sign(sc, sign))
}

// Makes z the response, in place: it holds the challenge product before. The sign is by bit 0 of a word.
fn add_product(word: u64, y: &[i32], z: &mut [i32]) -> Sums
    requires { (length y.now ≡ length z.old)
        × (length z.old ≤ 2048)
        × (all_within noise_bound y.now ≡ true)
        × (all_within output_bound z.old ≡ true) }
    ensures sums { (result.norm ≡ square_sum (response_of (subtracts word) y.now z.old))
        × (result.inner ≡ inner_product (response_of (subtracts word) y.now z.old) z.old) }
    ensures z_after { z.new ≡ response_of (subtracts word) y.now z.old }
{
    let sign = signed::sign_of(arithmetic::low_bits::<1>(word));
    let mut norm: u64 = 0;
    let mut inner: i64 = 0;
    for i in 0..z.len() {
        let sc = z[i];
        let v = response_at(y[i], sc, sign);
        z[i] = v;
        norm += signed::square(v);
        inner = signed::plus_product(inner, v, sc);
    }
    Sums { norm, inner }
}

// Whether each coefficient of z1, the first half of z, is within its limit. Every one is looked at, whatever the others are.
fn is_bounded(degree: usize, z: &[i32]) -> bool
    requires { degree ≤ length z.now }
    ensures { result ≡ is_bounded degree z.now }
{
    signed::all_within(&z[..degree], COEFFICIENT_LIMIT)
}

// The challenge product, three words and the response, in the order of the list: z becomes the response, and entries are listed from the
// start of the list on.
fn measured(factors: Factors, words: &[u64], y: &[i32], z: &mut [i32], list: &mut [u32]) -> Measures
    requires { (3 ≤ length words.now)
        × (length y.now ≡ 2 * factors.degree)
        × (all_within noise_bound y.now ≡ true)
        × (length z.old ≡ 2 * factors.degree)
        × (2 * factors.degree * length factors.challenge.now + 4 ≤ length list.old) }
    ensures value { result
        ≡ measures_of factors.entry.degree y.now
        (product factors.entry.key.now factors.entry.degree factors.entry.challenge.now) words.now }
    ensures z_after { z.new
        ≡ response_z y.now (product factors.entry.key.now factors.entry.degree factors.entry.challenge.now) words.now }
    ensures list_after { list.new
        ≡ sets list.old 0 (entry 7 factors.entry.degree
        ∷ (product_entries factors.entry.degree factors.entry.challenge.now ++ places_up 2 0 3)) }
{
    let degree = factors.degree;
    read_list::note(read_list::RESPONSE, degree, &mut list[0]);
    let squares = factors.product_listed(z, &mut list[KEY_AT..]);
    let at = KEY_AT + 2 * degree * factors.challenge.len();
    let [first, second, third] = read_list::listed_words::<WORDS>(
        words,
        read_list::WORD,
        0,
        &mut list[at..],
    );
    let sums = add_product(first, y, z);
    let bounded = is_bounded(degree, z);
    Measures {
        squares,
        norm: sums.norm,
        inner: sums.inner,
        bounded,
        second,
        third,
    }
}

// A response to a challenge. z is written where the bit is 1, else it is all zero; y becomes all zero. Entries are listed from the start
// of the list on, and the rest of the list is unchanged.
pub fn respond(
    factors: Factors,
    exponential: Exponential,
    words: &[u64],
    y: &mut [i32],
    z: &mut [i32],
    list: &mut [u32],
) -> Answer
    requires { (limit * exponential.reciprocal < 2 ^ 84)
        × (3 ≤ length words.now)
        × (length y.old ≡ 2 * factors.degree)
        × (all_within noise_bound y.old ≡ true)
        × (length z.old ≡ 2 * factors.degree)
        × (respond_list_length factors.degree (length factors.challenge.now) ≤ length list.old) }
    ensures { record { answer = result; y = y.new; z = z.new; list = list.new }
        ≡ responded_by factors.entry.degree
        (response_bit (exp_scaled exponential.entry.table.now exponential.entry.reciprocal) factors.entry.degree y.old
        (product factors.entry.key.now factors.entry.degree factors.entry.challenge.now) words.now)
        factors.entry.challenge.now
        (response_z y.old (product factors.entry.key.now factors.entry.degree factors.entry.challenge.now) words.now)
        list.old }
{
    let m = measured(factors, words, y, z, list);
    let at = KEY_AT + 2 * factors.degree * factors.challenge.len() + WORDS;
    let bit = acceptance::judged(exponential, m, &mut list[at..]);
    signed::keep_all(z, bit);
    signed::zero_all(y);
    let entries = at + acceptance::ENTRIES;
    Answer { bit, entries }
}
