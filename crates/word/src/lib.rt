// MAC and session as the wire carries them: eight bytes, low byte first.
#![tactic(auto)]

ghost use Rattle.std.specs.Prelude.{◌≡◌};
ghost use Rattle.word.specs.Words.{bytes_of, word_at};

// The eight bytes of a word.
#[tactic(auto, using(crate::proofs::Words::to_bytes))]
pub fn bytes_of(word: u64) -> [u8; 8]
    ensures { result ≡ bytes_of 8 word }
{
    word.to_le_bytes()
}

// The word whose eight bytes stand from `at` on; a byte past the end counts as 0.
#[tactic(auto, using(crate::proofs::Words::from_padded))]
pub fn word_at(bytes: &[u8], at: usize) -> u64
    ensures { result ≡ word_at bytes.now at }
{
    let start = at.min(bytes.len());
    u64::from_le_bytes(ground::padded(&bytes[start..]))
}
