//! A decimal word read as a number.

ghost use Rattle.std.specs.Prelude.{◌≡◌, ◌<◌, ◌^◌};
ghost use Rattle.scene_drill.specs.Summary.{number};

// The number that a word of up to twenty digits is, and else 0.
pub(crate) fn number(word: &[u8]) -> u128
    ensures value { result ≡ number word.now }
    ensures small { result < 2 ^ 67 }
{
    if word.len() > 20 {
        return 0;
    }
    let mut value = 0;
    'digits: for byte in word {
        if !byte.is_ascii_digit() {
            return 0;
        }
        value = value * 10 + u128::from(*byte - b'0');
    }
    value
}
