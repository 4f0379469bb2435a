// What a challenge is. It is public, and its tests may branch.
#![tactic(auto)]

ghost use Rattle.std.specs.Prelude.{◌≡◌};
ghost use Rattle.challenge.specs.Challenge.{length_fits, positions_below, ascends, are_positions, is_challenge};

// The most positions of a challenge, at any degree.
pub const MOST_POSITIONS: usize = 64;

// Whether a challenge of degree n may have so many positions: there are not too many.
pub fn length_fits(n: usize, count: usize) -> bool
    ensures { result ≡ length_fits n count }
{
    (count <= MOST_POSITIONS) & (count <= n)
}

// Whether every position is below n.
fn positions_below(n: usize, challenge: &[u32]) -> bool
    ensures { result ≡ positions_below n challenge.now }
{
    challenge.iter().all(|&position| (position as usize) < n)
}

// Whether the positions are strictly ascending.
fn ascending(challenge: &[u32]) -> bool
    ensures { result ≡ ascends challenge.now }
{
    challenge.windows(2).all(|pair| pair[0] < pair[1])
}

// Whether numbers can be the positions of a challenge at degree n; there may be none.
#[tactic(auto, unfolding(crate::specs::Challenge::are_positions))]
pub fn are_positions(n: usize, challenge: &[u32]) -> bool
    ensures { result ≡ are_positions n challenge.now }
{
    if !length_fits(n, challenge.len()) {
        return false;
    }
    let below = positions_below(n, challenge);
    below & ascending(challenge)
}

// Whether they are a challenge: there is at least one.
#[tactic(auto, unfolding(crate::specs::Challenge::is_challenge))]
pub fn is_challenge(n: usize, challenge: &[u32]) -> bool
    ensures { result ≡ is_challenge n challenge.now }
{
    let positions = are_positions(n, challenge);
    (challenge.len() != 0) & positions
}
