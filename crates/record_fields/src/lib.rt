//! The fields of records: what octets say by a layout of fields, readers and writers of stamps,
//! names, values, marks and cells, and the first field that breaks a rule. It knows neither entries
//! nor messages.
#![tactic(auto)]

mod cells;
mod fault;
mod fields;
mod writing;

pub use fault::{Broken, ReadError, RecordFault, Rule};
pub use fields::{Reader, broken};
pub use writing::{
    put_attr_name, put_cell, put_node, put_octet, put_optional_stamp, put_simple_name, put_stamp,
    put_u32, put_u64,
};
