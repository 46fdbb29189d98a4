// Names that are array indices.
ghost use Rattle.std.specs.Prelude.{◌≡◌};
ghost use Rattle.njs_props.specs.Names.{index_of, is_below, NamesIndex};

use njs_text::Text;

// One past the largest array index.
const INDEX_LIMIT: u64 = 4_294_967_295;

/// The array index that a name is (ECMA-262 5.1 §15.4): `0` to `4294967294`, without a sign or a leading zero. It takes
/// no memory, and reads no more than eleven characters.
pub fn array_index(name: &Text) -> Option<u32>
    ensures index { result ≡ index_of name.now }
    ensures spelled { NamesIndex name.now result }
{
    let first = name.at(0)?;
    let len = name.len();
    if first == '0' && len > 1 {
        return None;
    }
    let mut number: u64 = 0;
    for place in 0..len {
        let digit = name.at(place)?.to_digit(10)?;
        number = number * 10 + u64::from(digit);
        if number >= INDEX_LIMIT {
            return None;
        }
    }
    Some(number as u32)
}

// Whether a name is an array index below a length, or no index.
pub fn is_index_below(name: &Text, length: u64) -> bool
    ensures { result ≡ is_below length name.now }
{
    match array_index(name) {
        None => true,
        Some(index) => u64::from(index) < length,
    }
}
