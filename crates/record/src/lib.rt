// The record of a signature: definitions, claims, and what its writer and its reader share.
#![tactic(auto)]

ghost use Rattle.std.specs.Prelude.{◌≡◌};
ghost use Rattle.record.specs.Lengths.{packed_length};

// The largest size of a value.
pub const VALUE_LIMIT: u32 = 3263;

// The packed lengths of values, by size/128: the column of the printed checklist. They are bytes, since the compiler writes them to the
// stack where one is read.
const PACKED_LENGTHS: [u8; 26] = [
    9, 10, 11, 12, 13, 14, 15, 16, 17, 18, 19, 20, 21, 22, 23, 24, 25, 26, 27, 28, 29, 30, 31, 32,
    33, 34,
];

// The packed length of a value of this size, in bits; or 0, which is no length, where it is too large. It is no Option: C gets this number.
#[tactic(auto, using(crate::proofs::Lengths::packed_entry, crate::proofs::Lengths::packed_none))]
pub fn packed_length(size: u32) -> u8
    ensures { result ≡ packed_length size }
{
    if VALUE_LIMIT < size {
        return 0;
    }
    PACKED_LENGTHS[(size / 128) as usize]
}
