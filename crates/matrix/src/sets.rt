// Sets of phones as 64-bit words: phone p is the bit worth 2^(p−1).
ghost use Rattle.std.specs.Prelude.{if◌then◌else◌, ◌≡◌, min, leb};
ghost use Rattle.definitions.specs.PhoneSets.{has, alone, all_phones};

// All phones from 1 to a number, at most 64.
pub fn all_phones(phones: u32) -> u64
    ensures { result ≡ all_phones (min phones 64) }
{
    if 64 <= phones {
        u64::MAX
    } else {
        (1u64 << phones) - 1
    }
}

// The phone alone; the empty set for a number that is no phone.
pub fn alone(phone: u32) -> u64
    ensures { result ≡ (if leb phone 64 then alone phone else 0) }
{
    match phone {
        1..=64 => 1u64 << (phone - 1),
        _ => 0,
    }
}

// Whether a set has a phone.
pub fn has_phone(set: u64, phone: u32) -> bool
    ensures { result ≡ has phone set }
{
    match phone {
        1..=64 => (set >> (phone - 1)) & 1 == 1,
        _ => false,
    }
}
