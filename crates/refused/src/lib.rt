// Refusals, each named for what is refused.
#![tactic(auto)]

ghost use Rattle.std.specs.Prelude.{◌≡◌};
ghost use Rattle.refused.specs.Refusals.{number};

#[derive(Clone, Copy, PartialEq, Eq, Debug)]
pub enum Refusal {
    // The degree is not a power of two from 4 to 1,024.
    Degree = 1,
    // A table, y, z or the key has another length than the call asks for.
    Lengths = 2,
    // A CDT word is 2^62 or more, or a threshold is below the one before.
    Cdt = 3,
    // An entry of the polynomial table is another.
    Polynomial = 4,
    // The limit of attempts is outside 2n to 32n.
    Limit = 5,
    // The positions are no challenge at the degree.
    Challenge = 6,
    // There are too few words.
    Words = 7,
    // The list is too short.
    List = 8,
    // Nothing is drawn.
    NotDrawn = 9,
    // A value of the key is out of range.
    Key = 10,
    // A value of y is out of range.
    Y = 11,
    // N is above the exponential's limit.
    Exponent = 12,
    // The final sum of the key check is over what A may be.
    KeySum = 13,
    // An output is too short: for the record, or for a field of one.
    Output = 14,
    // A value is too large for a record, or bytes are no record.
    Record = 15,
    // The deviation is none of the four.
    Deviation = 16,
    // A response is asked for at another deviation than BLISS-I's.
    ResponseDeviation = 17,
}

impl Refusal {
    // Its number. 0 is no refusal's: a call that is served answers it.
    pub fn number(self) -> u32
        ensures { result ≡ number self }
    {
        self as u32
    }
}
