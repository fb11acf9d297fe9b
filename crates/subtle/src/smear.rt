//! Bit smearing: each set bit is spread to all places below it.
ghost use Rattle.std.specs.Prelude.{◌≡◌};
ghost use Rattle.subtle.specs.Smearing.{smeared, shifts_below};

/// All places of `bits` at or below its highest set bit.
pub(crate) fn smeared_8(mut bits: u8) -> u8
    ensures { result ≡ smeared (shifts_below 8) bits }
{
    bits |= bits >> 1;
    bits |= bits >> 2;
    bits | (bits >> 4)
}

/// All places of `bits` at or below its highest set bit.
pub(crate) fn smeared_16(mut bits: u16) -> u16
    ensures { result ≡ smeared (shifts_below 16) bits }
{
    bits |= bits >> 1;
    bits |= bits >> 2;
    bits |= bits >> 4;
    bits | (bits >> 8)
}

/// All places of `bits` at or below its highest set bit.
pub(crate) fn smeared_32(mut bits: u32) -> u32
    ensures { result ≡ smeared (shifts_below 32) bits }
{
    bits |= bits >> 1;
    bits |= bits >> 2;
    bits |= bits >> 4;
    bits |= bits >> 8;
    bits | (bits >> 16)
}

/// All places of `bits` at or below its highest set bit.
pub(crate) fn smeared_64(mut bits: u64) -> u64
    ensures { result ≡ smeared (shifts_below 64) bits }
{
    bits |= bits >> 1;
    bits |= bits >> 2;
    bits |= bits >> 4;
    bits |= bits >> 8;
    bits |= bits >> 16;
    bits | (bits >> 32)
}

/// All places of `bits` at or below its highest set bit.
pub(crate) fn smeared_128(mut bits: u128) -> u128
    ensures { result ≡ smeared (shifts_below 128) bits }
{
    bits |= bits >> 1;
    bits |= bits >> 2;
    bits |= bits >> 4;
    bits |= bits >> 8;
    bits |= bits >> 16;
    bits |= bits >> 32;
    bits | (bits >> 64)
}
