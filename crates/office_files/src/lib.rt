//! The files of the office: timing sets and cabinet records as CSV files, and printed texts.
#![tactic(auto)]

mod cabinet;
mod cells;
mod change_writing;
mod changes;
mod fault;
mod fields;
mod next_numbers;
mod overdue;
mod plan;
mod record_fields;
mod record_reading;
mod record_writing;
mod records;
mod rows;
mod sheet;
mod states;
mod timing;
mod violations;
mod writing;

pub use cabinet::{read_records_csv, records_csv};
pub use cabinet_core::OverdueRow;
pub use cells::push_numbers;
pub use change_writing::changes_csv;
pub use changes::read_timing_csv;
pub use fault::{BadRow, CsvFault, told_of_record};
pub use fields::fields_in;
pub use next_numbers::push_next_numbers;
pub use overdue::overdue_text;
pub use plan::read_plan_csv;
pub use records::read_records;
pub use sheet::timing_sheet;
pub use states::state_word;
pub use timing::timing_csv;
pub use violations::violation_text;
pub use writing::csv_file;
