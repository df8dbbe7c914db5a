//! The disassembler: PAL III source of a BIN tape. It shows what a tape gives the cells of core, as statements that assemble to just that.
//!
//! A line stands for each cell that the tape gives a word, by rising field and address (PAL III Symbolic Assembler manual,
//! and this project's profile of it). It has a statement that is the word at that place, and a comment with the cell and the word in
//! octal. The statement is a memory reference or permanent names where they make the word, and else its number. A cell that a memory
//! reference of the tape names has a tag, which stands for its address there. Where a program's starts are given, only the words that
//! it reaches are taken for instructions. Then a datum but 0 that is a tagged cell's address is shown by the tag, and comments and
//! empty lines show what `source_notes` knows of the cells. Where names are given, as `source_names` reads them, they are the tags of their
//! cells. What a source assembles to is proved for any comments and empty lines, and for any tags that are names of their own.
#![tactic(auto)]

mod faults;
pub mod laws;
mod lines;
mod notes;
mod patterns;
mod references;
mod sources;
mod statements;
mod tags;

pub use faults::ListFault;
pub use lines::{is_next, put_comment, put_field, put_origin, put_tag};
pub use notes::{put_above, put_gap, put_remark};
pub use references::operation_name;
pub use sources::{
    all_code, first_without, named_source_from, named_source_of, names_in, source_from, source_of,
    words_of,
};
pub use statements::{put_datum, put_indirection, put_instruction, put_piece, put_statement};
pub use tags::{Tags, tags_of};
