// A checksum over elements of 64 bits that depends on their order.
ghost use Rattle.std.specs.Prelude.{◌≡◌};
ghost use Rattle.test_support.specs.Sums.{mix_of, checksum_of};

use reader_hex::bits_of;

// The sum with one element more.
fn mixed(sum: u64, element: u64) -> u64
    ensures { result ≡ mix_of sum element }
{
    sum.rotate_left(32)
        .wrapping_mul(0x9e37_79b1)
        .wrapping_add(element)
}

// The checksum of all lent memory, whether a road lies there or not: of the words, then the patterns of the numbers, then the wants.
pub fn checksum(words: &[u16], numbers: &[f64], wants: &[u64]) -> u64
    ensures { result ≡ checksum_of words.now numbers.now wants.now }
{
    let sum = words
        .iter()
        .fold(1, |sum, word| mixed(sum, u64::from(*word)));
    let sum = numbers
        .iter()
        .fold(sum, |sum, number| mixed(sum, bits_of(*number)));
    wants.iter().fold(sum, |sum, want| mixed(sum, *want))
}
