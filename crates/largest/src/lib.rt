// The sum of the k largest of some values, with no branch on them: the k-th largest is found bit by bit, by counting, and what the others
// are over it is added.
#![tactic(auto)]

ghost use Rattle.std.specs.Prelude.{◌≡◌, ◌≤◌, ◌<◌, length, pos, nat_abs, ◌+ℤ◌};
ghost use Rattle.largest.specs.Largest.{largest_sum};
ghost use Rattle.largest.specs.Threshold.{value_at, threshold_bound, InRange, sum_over, reaches, excess, IsKth};

// The sizes of values are below 2^23: so the k-th largest is looked for from -2^23 on, in a range of 2^24.
const LOWEST: i32 = -8388608;

const RANGE_BITS: u32 = 24;

// How many values are at least t: all of them, less one for each that is below.
fn count_from(values: &[i32], t: i32) -> u32
    requires { InRange values.now (length values.now) }
    ensures { result ≡ sum_over (reaches t) (value_at values.now) (length values.now) }
{
    let mut count = values.len() as u32;
    for &value in values {
        count -= (value < t) as u32;
    }
    count
}

// By how much those that are over t are over it, in sum. There are fewer than 64.
fn excess_over(values: &[i32], t: i32) -> i32
    requires { InRange values.now (length values.now)
        × (nat_abs t ≤ threshold_bound)
        × (sum_over (reaches (t +ℤ pos 1)) (value_at values.now) (length values.now) < 64) }
    ensures { result ≡ pos (sum_over (excess t) (value_at values.now) (length values.now)) }
{
    let mut sum: i32 = 0;
    for &value in values {
        let over = value - t;
        sum += signed::kept(over, 0 <= over);
    }
    sum
}

// The k-th largest value. With `bit` bits to go it is in t .. t + 2^bit - 1, and the upper half is taken where k values reach it.
fn kth_largest(values: &[i32], k: u32) -> i32
    requires { InRange values.now (length values.now) × (0 < k) × (k ≤ length values.now) }
    ensures { IsKth (value_at values.now) (length values.now) k result × (nat_abs result ≤ threshold_bound) }
{
    let mut t = LOWEST;
    for bit in (0..RANGE_BITS).rev() {
        let half: i32 = 1 << bit;
        let many = count_from(values, t + half);
        t += signed::kept(half, k <= many);
    }
    t
}

// The sum of the k largest values.
pub fn largest_sum(values: &[i32], k: usize) -> i32
    requires { InRange values.now (length values.now) × (0 < k) × (k ≤ length values.now) × (k ≤ 64) }
    ensures { result ≡ largest_sum (value_at values.now) (length values.now) k }
{
    let t = kth_largest(values, k as u32);
    let over = excess_over(values, t);
    (k as i32) * t + over
}
