#![tactic(auto)]

mod bytes;
mod element;
mod elements;
mod names;
mod number;
mod reader;
mod values;

pub use element::Field;
pub use reader::{BadElement, Fault, FieldSet, read_field};
pub use values::Values;
