// Parts of a row by themselves, for comparing: a varint written and read, and the key-only read that seeks make. The block library has no call for them, so they
// have a C library of their own.
// Follows the varints of slatedb 0.16.0's src/utils.rs and the key-only read of its SstRowCodecV2 (Apache License 2.0), and is changed: each answers a code, 0 for
// good, the number of a refusal, and 254 for words that mean nothing, which is tested first; what else it answers goes to lent words.
#![tactic(auto)]

ghost use Rattle.compare_parts.specs.Promise.{WritesVarintFlat, ReadsVarintFlat, ReadsKeyFlat};

const VARINT_WORDS: usize = 2;

const KEY_WORDS: usize = 3;

// Writes the varint of `value` to the start of `output`: 6. Good sets `count` to its bytes.
#[unsafe(no_mangle)]
pub extern "C" fn slatedb_varint_put(output: &mut [u8], value: u32, count: &mut u64) -> u8
    ensures { WritesVarintFlat value output.old count.old result output.new count.new }
{
    match utils::encode_varint(output, 0, value) {
        Ok(n) => {
            *count = n as u64;
            block_words::GOOD
        }
        Err(refusal) => u8::from(refusal),
    }
}

// Reads the varint at `at`: 254, 9, 10. Good sets the words to its number and to the place after it.
#[unsafe(no_mangle)]
pub extern "C" fn slatedb_varint_get(input: &[u8], at: usize, words: &mut [u64]) -> u8
    ensures { ReadsVarintFlat input.now at words.old result words.new }
{
    if words.len() != VARINT_WORDS {
        return block_words::BAD_WORDS;
    }
    match utils_decode::decode_varint(input, at) {
        Ok(read) => {
            words[0] = read.value as u64;
            words[1] = read.next as u64;
            block_words::GOOD
        }
        Err(refusal) => u8::from(refusal),
    }
}

// Reads the key alone of the row at `at`, after a key of `previous_len` bytes, in a region that ends at `region_end`: 254, 9, 10, 13, 1, 2, 9, 16. Good sets the
// words to how many bytes it shares, where its suffix stands and how long that is.
#[unsafe(no_mangle)]
pub extern "C" fn slatedb_decode_key(
    input: &[u8],
    at: usize,
    region_end: usize,
    previous_len: usize,
    restart: u64,
    words: &mut [u64],
) -> u8
    ensures { ReadsKeyFlat input.now at region_end previous_len restart words.old result words.new }
{
    if words.len() != KEY_WORDS {
        return block_words::BAD_WORDS;
    }
    let Some(first) = row_words::truth_in(restart) else {
        return block_words::BAD_WORDS;
    };
    match row_decode_v2::decode_key_only(input, at, region_end, previous_len, first) {
        Ok(key) => {
            words[0] = key.shared as u64;
            words[1] = key.suffix_at as u64;
            words[2] = key.suffix_len as u64;
            block_words::GOOD
        }
        Err(refusal) => u8::from(refusal),
    }
}
