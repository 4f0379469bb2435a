// The refusals of calls: of each call, the first that applies.
#![tactic(auto)]

ghost use Rattle.std.specs.Prelude.{◌≡◌};
ghost use Rattle.refused.specs.Refusals.{refusal_of};
ghost use Rattle.refusals.specs.Refusals.{open_refusal, draw_refusal, noise_refusal, respond_refusal};

use refused::Refusal;

// The first refusal of an opening that applies.
#[tactic(auto, unfolding(crate::specs::Refusals::open_refusal, checks::specs::Checks::first_refusal))]
pub fn open_refusal(n: usize, deviation: u64) -> Result<(), Refusal>
    ensures { refusal_of result ≡ open_refusal n deviation }
{
    if !checks::is_degree(n) {
        return Err(Refusal::Degree);
    }
    if !deviations::is_deviation(deviation) {
        return Err(Refusal::Deviation);
    }
    Ok(())
}

// The first refusal of a draw that applies. Sizes are multiplied only after their factors are found small.
#[tactic(auto, using(crate::proofs::Few::few), unfolding(crate::specs::Refusals::draw_refusal, checks::specs::Checks::first_refusal))]
pub fn draw_refusal(
    n: usize,
    deviation: u64,
    limit: usize,
    cdt: &[u64],
    polynomial: &[u64],
    words: usize,
    y: usize,
    list: usize,
) -> Result<(), Refusal>
    ensures { refusal_of result ≡ draw_refusal n deviation limit cdt.now polynomial.now words y list }
{
    if !checks::is_degree(n) {
        return Err(Refusal::Degree);
    }
    if !deviations::is_deviation(deviation) {
        return Err(Refusal::Deviation);
    }
    if (cdt.len() != base_sample::CDT_WORDS)
        | (polynomial.len() != exponential::POLYNOMIAL_WORDS)
        | (y != 2 * n)
    {
        return Err(Refusal::Lengths);
    }
    let cdt_right = base_sample::is_cdt(cdt);
    let polynomial_right = exponential::is_polynomial(polynomial);
    if !cdt_right {
        return Err(Refusal::Cdt);
    }
    if !polynomial_right {
        return Err(Refusal::Polynomial);
    }
    if (limit < 2 * n) | (32 * n < limit) {
        return Err(Refusal::Limit);
    }
    if words < attempt::WORDS * limit {
        return Err(Refusal::Words);
    }
    if list < attempt::ENTRIES * limit + sampler::OTHER_ENTRIES {
        return Err(Refusal::List);
    }
    Ok(())
}

// The first refusal of a respond that applies.
#[tactic(auto, using(crate::proofs::Few::few), unfolding(crate::specs::Refusals::respond_refusal, checks::specs::Checks::first_refusal))]
pub fn respond_refusal(
    n: usize,
    deviation: u64,
    drawn: u64,
    challenge: &[u32],
    polynomial: &[u64],
    words: usize,
    key: &[i32],
    y: &[i32],
    z: usize,
    list: usize,
) -> Result<(), Refusal>
    ensures { refusal_of result
        ≡ respond_refusal n deviation drawn challenge.now polynomial.now words key.now y.now z
        list }
{
    if !checks::is_degree(n) {
        return Err(Refusal::Degree);
    }
    if !deviations::is_deviation(deviation) {
        return Err(Refusal::Deviation);
    }
    if deviation != deviations::BLISS_I {
        return Err(Refusal::ResponseDeviation);
    }
    let both = 2 * n;
    if (polynomial.len() != exponential::POLYNOMIAL_WORDS)
        | (y.len() != both)
        | (z != both)
        | (key.len() != both)
    {
        return Err(Refusal::Lengths);
    }
    if !exponential::is_polynomial(polynomial) {
        return Err(Refusal::Polynomial);
    }
    if !challenge::are_positions(n, challenge) {
        return Err(Refusal::Challenge);
    }
    if words < response::WORDS {
        return Err(Refusal::Words);
    }
    if list < both * challenge.len() + response::OTHER_ENTRIES {
        return Err(Refusal::List);
    }
    noise_refusal(drawn, key, y)
}

// The first of refusals 9 to 11 that applies. Key and y are looked at whole, and whether y is small is joined with whether the key
// is: a branch on y alone would tell of y where the key is refused.
#[tactic(auto, unfolding(crate::specs::Refusals::noise_refusal, checks::specs::Checks::first_refusal))]
fn noise_refusal(drawn: u64, key: &[i32], y: &[i32]) -> Result<(), Refusal>
    ensures { refusal_of result ≡ noise_refusal drawn key.now y.now }
{
    if drawn != 1 {
        return Err(Refusal::NotDrawn);
    }
    let key_small = signed::all_within(key, challenge_product::KEY_BOUND);
    let y_small = signed::all_within(y, response::NOISE_BOUND);
    if key_small & y_small {
        return Ok(());
    }
    Err(if key_small { Refusal::Y } else { Refusal::Key })
}
