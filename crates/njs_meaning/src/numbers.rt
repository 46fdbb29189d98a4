// Texts as numbers, and numbers in 32 bits.
ghost use Rattle.std.specs.Prelude.{◌≡◌, ◌≤◌};
ghost use Rattle.njs_meaning.specs.Numbers.{unsigned_32, signed_32};

/// ToUint32 (ECMA-262 5.1 §9.6): the number modulo 2^32.
pub fn unsigned_32(number: i64) -> u32
    ensures { result ≡ unsigned_32 number }
{
    number.rem_euclid(4_294_967_296) as u32
}

/// ToInt32 (ECMA-262 5.1 §9.5): the number modulo 2^32, from -2^31 on.
pub fn signed_32(number: i64) -> i32
    ensures { result ≡ signed_32 number }
{
    unsigned_32(number).cast_signed()
}
