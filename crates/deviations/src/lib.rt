// The deviations of noise, by request S-8, as the numbers that a session holds for C. A session's is public, and so is all that hangs on
// it.
#![tactic(auto)]

ghost use Rattle.std.specs.Prelude.{◌≡◌, true};
ghost use Rattle.exponential.specs.Exponential.{reciprocal, divisor_at};
ghost use Rattle.deviations.specs.Deviations.{is_deviation};

// BLISS-I's.
pub const BLISS_I: u64 = 215;

// R at the others. It is above 2^63 at 107.
const RECIPROCAL_107: u64 = 13199032880760646941;

const RECIPROCAL_250: u64 = 2417851639229258349;

const RECIPROCAL_271: u64 = 2057648009311265462;

// Whether a session may have this deviation.
pub fn is_deviation(deviation: u64) -> bool
    ensures { result ≡ is_deviation deviation }
{
    matches!(deviation, 107 | 215 | 250 | 271)
}

// R at a deviation, looked up: no code divides.
pub fn reciprocal_at(deviation: u64) -> u64
    requires { is_deviation deviation ≡ true }
    ensures { result ≡ reciprocal (divisor_at deviation) }
{
    match deviation {
        107 => RECIPROCAL_107,
        250 => RECIPROCAL_250,
        271 => RECIPROCAL_271,
        _ => exponential::RECIPROCAL_215,
    }
}
