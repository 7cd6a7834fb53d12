// Little-endian words of lent bytes, and a block's check. What both are is said in specs/.
#![tactic(auto)]

ghost use Rattle.std.specs.Prelude.{◌≡◌};
ghost use Rattle.words.specs.Words.{word, check};

// The word in the four bytes from `place` on, the lowest first. A byte past the end counts as 0.
pub fn word_at(bytes: &[u8], place: usize) -> u32
    ensures { result ≡ word bytes.now place }
{
    let Some(rest) = bytes.get(place..) else {
        return 0;
    };
    match rest {
        [a, b, c, d, ..] => u32::from_le_bytes([*a, *b, *c, *d]),
        [a, b, c] => u32::from_le_bytes([*a, *b, *c, 0]),
        [a, b] => u32::from_le_bytes([*a, *b, 0, 0]),
        [a] => u32::from(*a),
        [] => 0,
    }
}

// The check of a block: the wrapping sum of its first 127 words and 1.
pub fn block_sum(block: &[u8]) -> u32
    ensures { result ≡ check block.now }
{
    let mut sum: u32 = 1;
    for k in 0..127 {
        sum = sum.wrapping_add(word_at(block, 4 * k));
    }
    sum
}
