//! The words that rows of cases are written in: numbers, bytes, requests and answers, and the texts of results.
#![tactic(auto)]

mod number;
mod output;
mod pieces;
mod row_fault;
mod spelled;
mod table;
mod texts;
mod words;

pub use number::decimal;
pub use output::Output;
pub use pieces::bytes_of;
pub use row_fault::RowFault;
pub use spelled::{
    name_fault, name_of, octal, read_answer, read_attr, read_errno, read_items, read_kind,
    read_perm, read_request, read_u32, tell_answer, tell_attr, tell_items, tell_request,
    tell_wire_fault,
};
pub use table::chosen;
pub use texts::Texts;
pub use words::Words;
