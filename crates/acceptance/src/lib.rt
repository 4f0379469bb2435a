// The bit of a response of document 01 and request S-2. Nothing branches on a sum, a test or a word; the five tests are joined into one
// bit.
#![tactic(auto)]

ghost use Rattle.std.specs.Prelude.{◌≡◌, ◌+◌, ◌*◌, ◌^◌, ◌≤◌, ◌<◌, length, nat_abs};
ghost use Rattle.std.proofs.lemmas.List.Edits.{sets};
ghost use Rattle.exponential.specs.Exponential.{exp_scaled, limit};
ghost use Rattle.acceptance.specs.Acceptance.{cosh_passes, all_pass, accepts_by, acceptance_entries};

use exponential::Exponential;

// The most that A may be.
pub const SQUARES_LIMIT: u64 = 46225;

// The most that Z may be.
const NORM_LIMIT: u64 = 165688384;

// Where the entries of the second exponential and of the bit begin, counted from the first exponential's, and how many are listed.
const SECOND_AT: usize = exponential::POLYNOMIAL_WORDS;

const BIT_AT: usize = SECOND_AT + exponential::POLYNOMIAL_WORDS;

pub const ENTRIES: usize = BIT_AT + 1;

// What the bit of a response depends on: the sums A, Z and I, whether the coefficients of z1 are within their limit, and two words.
#[derive(Clone, Copy)]
pub struct Measures {
    pub squares: u64,
    pub norm: u64,
    pub inner: i64,
    pub bounded: bool,
    pub second: u64,
    pub third: u64,
}

// The cosh test: 62 of a word, times 2^62 + f, is below e times 2^63.
#[tactic(auto, using(arithmetic::proofs::Bits::bit_is_1), unfolding(crate::specs::Acceptance::cosh_passes))]
fn passes_cosh(e: u64, word: u64) -> bool
    requires { e ≤ 2 ^ 62 }
    ensures { result ≡ cosh_passes e word }
{
    let f = arithmetic::square_shift62(e);
    let left = arithmetic::product(arithmetic::low_bits::<62>(word), arithmetic::TWO_62 + f);
    let right = arithmetic::product(e, arithmetic::TWO_63);
    arithmetic::less(left, right) == 1
}

// The five tests of a response, joined without a branch.
#[tactic(auto, unfolding(crate::specs::Acceptance::all_pass))]
fn all_pass(m: Measures, e1: u64, e2: u64) -> bool
    requires { e2 ≤ 2 ^ 62 }
    ensures { result ≡ all_pass m e1 e2 }
{
    let second = arithmetic::low_bits::<62>(m.second);
    let cosh = passes_cosh(e2, m.third);
    (m.squares <= SQUARES_LIMIT) & ((m.norm <= NORM_LIMIT) & (m.bounded & ((second < e1) & cosh)))
}

// The bit of a response. Both exponentials are always worked out. Their reads and the bit are listed from the start of a list on, and the
// rest of the list is unchanged.
pub fn judged(exponential: Exponential, m: Measures, list: &mut [u32]) -> bool
    requires { (limit * exponential.reciprocal < 2 ^ 84)
        × (nat_abs m.inner < 2 ^ 60)
        × (43 ≤ length list.old) }
    ensures value { result ≡ accepts_by (exp_scaled exponential.entry.table.now exponential.entry.reciprocal) m }
    ensures list_after { list.new ≡ sets list.old 0 (acceptance_entries result) }
{
    let first_exponent = SQUARES_LIMIT - arithmetic::smaller(m.squares, SQUARES_LIMIT);
    let second_exponent = arithmetic::smaller(2 * signed::size_of(m.inner), exponential::LIMIT);
    let e1 = exponential.listed(first_exponent, list);
    let e2 = exponential.listed(second_exponent, &mut list[SECOND_AT..]);
    let accepted = all_pass(m, e1, e2);
    read_list::note(read_list::BIT, accepted as usize, &mut list[BIT_AT]);
    accepted
}
