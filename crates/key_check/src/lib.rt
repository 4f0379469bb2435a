// Whether a key can always sign at a challenge length. No branch and no index depends on a key value, an inner product or a sum, until
// the final sum is compared with its limit.
#![tactic(auto)]

ghost use Rattle.std.specs.Prelude.{◌≡◌, true, ◌+◌, ◌-◌, ◌*◌, ◌<◌, ◌≤◌, length, get_or, replicate, pos, nat_abs, IfOk};
ghost use Rattle.refused.specs.Refusals.{refusal_of};
ghost use Rattle.key_check.specs.KeyCheck.{final_sum, is_length, key_refusal, key_answer};
ghost use Rattle.key_check.specs.Rows.{Keyed, AreSmall, sum_to, product_of, terms, entry_bound, HoldsRow, MovedOn};

use refused::Refusal;

// The sum of products of two stretches of the key, place by place.
fn stretch(a: &[i32], b: &[i32]) -> i32
    requires { AreSmall a.now × AreSmall b.now × (length a.now ≡ length b.now) × (length a.now ≤ 1024) }
    ensures { (result ≡ sum_to (product_of a.now b.now) (length a.now)) × (nat_abs result ≤ 49 * length a.now) }
{
    let mut sum: i32 = 0;
    for (x, y) in a.iter().zip(b) {
        sum += x * y;
    }
    sum
}

// In the half that starts at `base`, the inner product of rotation c and the key: what wraps is subtracted.
fn half_inner(key: &[i32], n: usize, base: usize, c: usize) -> i32
    requires { Keyed key.now n × (base ≤ n) × (c < n) }
    ensures { (result ≡ sum_to (terms key.now n base c 0) n) × (nat_abs result ≤ 49 * n) }
{
    let half = &key[base..base + n];
    let direct = stretch(&half[..n - c], &half[c..]);
    let wrapped = stretch(&half[n - c..], &half[..c]);
    direct - wrapped
}

// Row 0 of the table.
fn first_row(key: &[i32], row: &mut [i32])
    requires { Keyed key.now (length row.old) × (row.old ≡ replicate (length row.old) (pos 0)) }
    ensures { HoldsRow key.now (length row.old) 0 row.new }
{
    let n = row.len();
    for (j, entry) in row.iter_mut().enumerate() {
        let first = half_inner(key, n, 0, j);
        let second = half_inner(key, n, n, j);
        *entry = signed::plus(first, second);
    }
}

// The next row: moved on by one place, with minus its last entry in front.
fn next_row(row: &mut [i32])
    requires { (0 < length row.old) × (nat_abs (get_or row.old (length row.old - 1) (pos 0)) ≤ entry_bound) }
    ensures { MovedOn row.old row.new }
{
    let mut carried = 0 - row[row.len() - 1];
    for entry in row.iter_mut() {
        let value = *entry;
        *entry = carried;
        carried = value;
    }
}

// The final sum. One row of the table is held at a time.
fn final_sum(key: &[i32], n: usize, count: usize) -> u32
    requires { Keyed key.now n × (0 < count) × (count ≤ n) × (count ≤ 64) }
    ensures { pos result ≡ final_sum key.now n count }
{
    let mut row: [i32; 1024] = [0; 1024];
    let mut sums: [i32; 1024] = [0; 1024];
    let row = &mut row[..n];
    let sums = &mut sums[..n];
    first_row(key, row);
    for sum in sums.iter_mut() {
        *sum = largest::largest_sum(row, count);
        next_row(row);
    }
    largest::largest_sum(sums, count) as u32
}

// Whether a challenge of degree n can have so many positions.
fn is_length(n: usize, count: usize) -> bool
    ensures { result ≡ is_length n count }
{
    let fits = challenge::length_fits(n, count);
    (count != 0) & fits
}

// What the key check answers to C, by value: a refusal and 0, or 0 and the final sum.
#[repr(C)]
#[derive(Clone, Copy)]
pub struct KeyCheck {
    pub refusal: u32,
    pub sum: u32,
}

// The key check, for challenges of just `count` positions.
#[tactic(auto, unfolding(crate::specs::KeyCheck::key_answer))]
pub fn check_key(n: usize, key: &[i32], count: usize) -> KeyCheck
    ensures { result ≡ key_answer n key.now count }
{
    match checked(n, key, count) {
        Ok(sum) => KeyCheck { refusal: 0, sum },
        Err(refusal) => KeyCheck {
            refusal: refusal.number(),
            sum: 0,
        },
    }
}

// The final sum, or the first refusal that applies.
#[tactic(auto, using(crate::proofs::Answers::tested), unfolding(crate::specs::KeyCheck::key_refusal, checks::specs::Checks::first_refusal))]
fn checked(n: usize, key: &[i32], count: usize) -> Result<u32, Refusal>
    ensures refusal { refusal_of result ≡ key_refusal n key.now count }
    ensures sum { IfOk result (λ sum. pos sum ≡ final_sum key.now n count) }
{
    if !checks::is_degree(n) {
        return Err(Refusal::Degree);
    }
    if key.len() != 2 * n {
        return Err(Refusal::Lengths);
    }
    if !is_length(n, count) {
        return Err(Refusal::Challenge);
    }
    if !signed::all_within(key, challenge_product::KEY_BOUND) {
        return Err(Refusal::Key);
    }
    let sum = final_sum(key, n, count);
    if acceptance::SQUARES_LIMIT < sum as u64 {
        return Err(Refusal::KeySum);
    }
    Ok(sum)
}
