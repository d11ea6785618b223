// Words as the bytes of an image, the highest byte first.
ghost use Rattle.std.specs.Prelude.{◌≡◌, ℕ, ◌+◌, ◌*◌, ◌^◌, ◌<◌, ◌≤◌, length, slice_index_or};
ghost use Rattle.tip_element.specs.Words.{no_word};
ghost use Rattle.tip_image.specs.Image.{word_from};
ghost use Rattle.tip_image.specs.Writing.{bytes_of, Worded};
ghost use Rattle.tip_store.specs.Pasting.{Pasted};

use tip_element::word::Word;
use tip_store::paste::paste;

/// The word that begins at this index.
pub(crate) fn read_word(bytes: &[u8], at: usize) -> Word
    requires { at + 7 < length bytes.now }
    ensures { result ≡ word_from bytes.now at }
{
    Word(u64::from_be_bytes([
        bytes[at],
        bytes[at + 1],
        bytes[at + 2],
        bytes[at + 3],
        bytes[at + 4],
        bytes[at + 5],
        bytes[at + 6],
        bytes[at + 7],
    ]))
}

/// The bytes of a word, the highest first.
fn bytes_of(word: Word) -> [u8; 8]
    ensures { result ≡ bytes_of word }
{
    word.0.to_be_bytes()
}

/// Writes the word that begins at this index. That a word is below 2^64 is told for `write_words`.
pub(crate) fn write_word(bytes: &mut [u8], at: usize, word: Word)
    requires { at + 7 < length bytes.old }
    ensures written { Pasted 0 at (bytes_of word) bytes.old bytes.new }
    ensures small { word.0 < 2 ^ 64 }
{
    paste(bytes, at, &bytes_of(word));
}

/// Writes words from an index on, one after another. Of a slice of words nothing says that each is below 2^64 but that it was read.
pub(crate) fn write_words(bytes: &mut [u8], start: usize, words: &[Word])
    requires { start + 8 * length words.now ≤ length bytes.old }
    ensures written { Worded start words.now bytes.old bytes.new }
    ensures small { (r : ℕ) → r < length words.now → (slice_index_or words.now r no_word).0 < 2 ^ 64 }
{
    for (row, word) in words.iter().enumerate() {
        write_word(bytes, start + 8 * row, *word);
    }
}
