// Tests that calls make before they are served.
#![tactic(auto)]

ghost use Rattle.std.specs.Prelude.{◌≡◌};
ghost use Rattle.checks.specs.Checks.{is_degree};

// Whether n is a degree: a power of two from 4 to 1,024.
pub fn is_degree(n: usize) -> bool
    ensures { result ≡ is_degree n }
{
    matches!(n, 4 | 8 | 16 | 32 | 64 | 128 | 256 | 512 | 1024)
}
