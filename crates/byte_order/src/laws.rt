//! Laws of numbers in an order, and of the words of a file that is read in one.

ghost use Rattle.std.specs.Prelude.{◌≡◌, ℕ, ◌+◌, ◌*◌, ◌^◌, ◌<◌, ◌≤◌, ◌==◌, List, length, take, drop};
ghost use Rattle.std.specs.List.{list_all};
ghost use Rattle.quota_types.specs.Bytes.{byte_at, number_at};
ghost use Rattle.file_blocks.specs.Block.{block_of, word_at};
ghost use Rattle.byte_order.specs.Number.{number_in};
ghost use Rattle.byte_order.specs.Words.{in_order};

use crate::Order;

/// A little-endian file is read as it is.
pub fn little_endian_words_are_the_file()
    ensures file { (file : List ℕ) → in_order Order.Little file ≡ file }
    ensures numbers { (width at : ℕ) (file : List ℕ) → number_in Order.Little width file at ≡ number_at width file at }
{}

/// A word of a file that is read in an order is the little-endian word in its place, also where the end of the file
/// cuts it. Past the end both are 0.
pub fn a_word_is_read_in_two_ways()
    ensures same { (order : Order) (file : List ℕ) (word : ℕ)
        → number_in order 4 file (4 * word) ≡ number_at 4 (in_order order file) (4 * word) }
    ensures past { (order : Order) (width at : ℕ) (file : List ℕ) → length file ≤ at
        → number_in order width file at ≡ 0 }
{}

/// What is read of some words of a file can be read of the file's words: the blocks of these are the words of its
/// blocks, and so it is with any words that stand side by side, as an entry does.
pub fn parts_are_put_in_order()
    ensures blocks { (order : Order) (file : List ℕ) (number : ℕ)
        → block_of (in_order order file) number ≡ in_order order (block_of file number) }
    ensures words { (order : Order) (file : List ℕ) (number word : ℕ)
        → number_in order 4 (block_of file number) (4 * word) ≡ word_at (in_order order file) number word }
    ensures parts { (order : Order) (file : List ℕ) (skip words : ℕ)
        → take (4 * words) (drop (4 * skip) (in_order order file))
        ≡ in_order order (take (4 * words) (drop (4 * skip) file)) }
{}

/// The halves of a word change places: the number of entries that a data block states, at its byte 8, comes to stand at
/// byte 10.
pub fn halves_change_places()
    ensures first { (file : List ℕ) (word : ℕ)
        → number_in Order.Big 2 file (4 * word) ≡ number_at 2 (in_order Order.Big file) (4 * word + 2) }
    ensures second { (file : List ℕ) (word : ℕ)
        → number_in Order.Big 2 file (4 * word + 2) ≡ number_at 2 (in_order Order.Big file) (4 * word) }
    ensures stated { (file : List ℕ) (number : ℕ)
        → number_in Order.Big 2 (block_of file number) 8 ≡ number_at 2 (block_of (in_order Order.Big file) number) 10 }
{}

/// A number of eight bytes has its upper half in front, so that it is no little-endian number of the words.
pub fn upper_words_stand_in_front()
    ensures { (file : List ℕ) (word : ℕ)
        → number_in Order.Big 8 file (4 * word)
        ≡ number_at 4 (in_order Order.Big file) (4 * word + 4)
        + 2 ^ 32 * number_at 4 (in_order Order.Big file) (4 * word) }
{}

/// The words are as long as the file, but for a last one that is filled up.
pub fn a_cut_word_is_filled_up()
    ensures least { (order : Order) (file : List ℕ) → length file ≤ length (in_order order file) }
    ensures most { (order : Order) (file : List ℕ) → length (in_order order file) < length file + 4 }
    ensures whole { (order : Order) (file : List ℕ) (words : ℕ) → length file ≡ 4 * words
        → length (in_order order file) ≡ length file }
{}

/// Words that are put in order twice are as they were.
pub fn words_are_put_back()
    ensures whole { (order : Order) (file : List ℕ) (words : ℕ) → length file ≡ 4 * words
        → in_order order (in_order order file) ≡ file }
    ensures bytes { (order : Order) (file : List ℕ) (at : ℕ)
        → byte_at (in_order order (in_order order file)) at ≡ byte_at file at }
{}

/// Bytes are all 0, as those of an unused entry, exactly where those of their words are.
pub fn zeros_are_zeros_in_each_order()
    ensures { (order : Order) (file : List ℕ)
        → list_all (λ byte. byte == 0) (in_order order file) ≡ list_all (λ byte. byte == 0) file }
{}
