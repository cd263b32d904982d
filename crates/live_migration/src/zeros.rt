//! Bytes that are all zero.
ghost use Rattle.std.specs.Prelude.{◌≡◌, ◌==◌};
ghost use Rattle.std.specs.List.{list_all};
ghost use Rattle.live_migration.specs.Image.{are_zero};

// Whether all bytes are zero: sixteen at a time, since most of a guest's memory is looked at so.
pub(crate) fn are_zero(bytes: &[u8]) -> bool
    ensures { result ≡ are_zero bytes.now }
{
    let (words, rest) = bytes.as_chunks::<16>();
    are_zero_words(words) && are_zero_bytes(rest)
}

fn are_zero_bytes(bytes: &[u8]) -> bool
    ensures { result ≡ are_zero bytes.now }
{
    bytes.iter().all(|b| *b == 0)
}

fn are_zero_words(words: &[[u8; 16]]) -> bool
    ensures { result ≡ list_all (λ w. are_zero w) words.now }
{
    words.iter().all(|word| is_zero_word(word))
}

#[inline(always)]
fn is_zero_word(word: &[u8; 16]) -> bool
    ensures { result ≡ are_zero word.now }
{
    u128::from_le_bytes(*word) == 0
}
