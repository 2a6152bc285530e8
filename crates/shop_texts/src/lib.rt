//! A shop's texts: for trouble codes, of SPNs, of FMIs, and of both together (SAE J1939-73); and for control units, which are told
//! by what their NAMEs say of them where there is none (SAE J1939-81).
//!
//! Its files are rows of separated values (RFC 4180) under named columns, read one after the other.
#![tactic(auto)]

mod code_reading;
mod code_texts;
mod csv_rows;
mod sheet;
mod sheet_fault;
mod unit_key;
mod unit_reading;
mod unit_row;
mod unit_texts;
mod unit_words;

pub use code_texts::{TextWords, Texts};
pub use sheet::Sheet;
pub use sheet_fault::{ColumnNames, RowFault, SheetFault, WrongLines};
pub use unit_row::UnitRow;
pub use unit_texts::UnitTexts;
pub use unit_words::{FieldWords, UnitWords, unclaimed_words};
