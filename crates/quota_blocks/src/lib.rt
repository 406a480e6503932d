//! What a quota program stands on, under one name: the outside and its objects in memory, the lines and words of
//! inputs, whole files, blocks and pages of files, and what an opened quota file offers.
//!
//! It is for those who take the library, has nothing of its own, and each line hands on what stands in the crate that
//! it names. No crate of the program uses it: each names the crate where the thing is.
//!
//! It has no function, and so promises nothing: a name here is what it is there.
#![tactic(auto)]

pub use file_blocks::{
    BLOCK, BlockSet, CheckFault, block_of, le16, le32, le64, read_block, set_le16, set_le32,
    set_le64, whole_block,
};
pub use input_text::{
    LineFault, LineReader, StoreInput, StoreSource, TextBuffer, after_words, has_no_word,
    has_words, next_word, number_in, read_number, words,
};
pub use memory_objects::{MemLink, MemSink, MemSource, MemStore};
pub use opened_file::{
    FileFault, FileUse, LoadFault, OpenFault, QuotaFile, ReplaceFault, load, name_of_new, replace,
};
pub use outside::{Got, Link, LinkFault, Sink, SinkFault, Source, SourceFault, Store, StoreFault};
pub use quota_pages::Pages;
