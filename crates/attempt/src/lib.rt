// The attempt of document 01. Nothing branches on a word, a sample or e(N), and the exponential is always worked out.
#![tactic(auto)]

ghost use Rattle.std.specs.Prelude.{◌≡◌, not, ◌&&◌, ◌+◌, ◌*◌, ◌/◌, ◌%◌, ◌^◌, ◌≤◌, ◌<◌, ltb, eqb, length, set};
ghost use Rattle.std.proofs.lemmas.List.Edits.{sets};
ghost use Rattle.arithmetic.specs.Words.{low62_of};
ghost use Rattle.exponential.specs.Exponential.{attempt_limit, exp_scaled};
ghost use Rattle.attempt.specs.Attempt.{size, exponent, sample, bit_at, sample_at, attempt_entries};

use arithmetic::Wide;
use base_sample::Cdt;
use exponential::Exponential;

// The words of an attempt.
pub const WORDS: usize = 4;

// Where its entries of the CDT table, of the polynomial table and of the samples accepted before begin, counted from the first of its
// words, and how many it lists.
const CDT_AT: usize = WORDS;

const POLYNOMIAL_AT: usize = CDT_AT + base_sample::CDT_WORDS;

const ACCEPTED_AT: usize = POLYNOMIAL_AT + exponential::POLYNOMIAL_WORDS;

pub const ENTRIES: usize = ACCEPTED_AT + 1;

// N, by which an attempt is accepted.
fn exponent_of(x: u64, third: u64) -> u64
    requires { x ≤ 10 }
    ensures { (result ≡ exponent x (third % 2 ^ 8)) × (result ≤ attempt_limit) }
{
    let b = arithmetic::low_bits::<8>(third);
    b * (b + 512 * x)
}

// Stores the sample of an attempt, and gives the accept bit.
fn judged(e: u64, x: u64, third: u64, fourth: u64, to: &mut i32) -> bool
    requires { x ≤ 10 }
    ensures value { result ≡ (ltb (low62_of fourth) e && not (eqb (size x (third % 2 ^ 8)) 0 && eqb (third / 2 ^ 8 % 2) 1)) }
    ensures sample_after { to.new ≡ sample x (third % 2 ^ 8) (eqb (third / 2 ^ 8 % 2) 1) }
{
    let size = 256 * x + arithmetic::low_bits::<8>(third);
    let sign = arithmetic::bit_at::<8>(third);
    *to = signed::times_sign(size as i32, signed::sign_of(sign));
    (arithmetic::low_bits::<62>(fourth) < e) & !((size == 0) & (sign == 1))
}

// The tables that attempts are made over, at a number R by which each N of theirs can be scaled.
#[derive(Clone, Copy)]
pub struct Tables<'c, 'p> {
    pub cdt: Cdt<'c>,
    pub exponential: Exponential<'p>,
    ghost scales: { attempt_limit * exponential.reciprocal < 2 ^ 84 },
}

impl Tables<'_, '_> {
    // Attempt t, after k accepted samples: its sample is stored at the index k of y, its reads are listed from the start of a list on, and
    // the accept bit is the result. The rest of the list is unchanged.
    pub fn attempt(self, words: &[u64], t: usize, y: &mut [i32], k: usize, list: &mut [u32]) -> bool
        requires { (t < 2 ^ 20)
            × (4 * t + 4 ≤ length words.now)
            × (k < length y.old)
            × (k < 2 ^ 24)
            × (46 ≤ length list.old) }
        ensures value { result
            ≡ bit_at (exp_scaled self.entry.exponential.table.now self.entry.exponential.reciprocal)
            self.entry.cdt.words.now words.now t }
        ensures y_after { y.new ≡ set y.old k (sample_at self.entry.cdt.words.now words.now t) }
        ensures list_after { list.new ≡ sets list.old 0 (attempt_entries t k) }
    {
        let [first, second, third, fourth] = read_list::listed_words::<WORDS>(
            words,
            read_list::WORD,
            WORDS * t,
            list,
        );
        let draw = Wide {
            high: arithmetic::low_bits::<62>(first),
            low: arithmetic::low_bits::<62>(second),
        };
        let x = self.cdt.scan(draw, &mut list[CDT_AT..]);
        let n = exponent_of(x, third);
        let e = self.exponential.listed(n, &mut list[POLYNOMIAL_AT..]);
        read_list::note(read_list::ACCEPTED_BEFORE, k, &mut list[ACCEPTED_AT]);
        judged(e, x, third, fourth, &mut y[k])
    }
}
