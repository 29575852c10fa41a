// The test of document 02's word: eight directions as one number, lowest byte first.
ghost use Rattle.std.specs.Prelude.{◌≡◌};
ghost use Rattle.sheet.specs.Word.{first_bad_of};
ghost use Rattle.directions.specs.LowestBits.{clear_lowest_in};

// Each byte of the word with its lowest set bit cleared. With its highest bit set a byte is at least 128, so that
// taking 1 from it borrows nothing from the next one.
fn clear_lowest_bits(word: u64) -> u64
    ensures { result ≡ clear_lowest_in 8 word }
{
    word & ((word | 0x8080_8080_8080_8080) - 0x0101_0101_0101_0101)
}

// The place, 0 to 7, of the word's first byte that is none of the nine codes, or 8 if there is none. The codes are the
// bytes with at most one bit set.
pub fn first_bad(word: u64) -> u32
    ensures { result ≡ first_bad_of word }
{
    u64::trailing_zeros(clear_lowest_bits(word)) / 8
}
