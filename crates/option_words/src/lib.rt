//! The words of a command line as options with their values, and operands.
//!
//! The one promise: what words give, and the first fault among them, are those of the items that they say.
#![tactic(auto)]

mod export_option;
mod file_name;
mod given;
mod parts;
mod scan;
mod switch;
mod tool;
mod values;
mod word_fault;

pub use export_option::{ExportOption, ExportOptions};
pub use file_name::{all_graphic, is_file_name, read_file_name};
pub use given::{Conversion, ExportWords, Given};
pub use scan::{OperandWord, Scan, scan_words};
pub use switch::{Flag, Flags, Setting, Switch};
pub use tool::Tool;
pub use values::{
    checked, is_export_path, lines_of, number_within, read_calls, read_format, read_kind, read_port,
};
pub use word_fault::Fault;
