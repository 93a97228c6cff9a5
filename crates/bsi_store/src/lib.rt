//! Indexes that are saved in files, by their paths: made of row files, added to, opened, asked, shown and checked.
#![tactic(auto)]

mod add;
mod add_file;
mod ask;
mod fault;
mod heads;
mod lines;
mod lock;
mod new_file;
mod opening;
mod save;
mod show;
mod summary;
mod surveying;
mod target;
mod writing;

pub use add::{AddPaths, add_rows};
pub use ask::{AskPaths, ask_input, ask_over};
pub use fault::{FileFault, FileText, MAX_FILE_TEXT, StoreFault, WriteReason};
pub use lines::push_count_line;
pub use lock::LockFile;
pub use opening::{open_file, read_saved};
pub use save::{SavePaths, save_kinds, save_rows};
pub use show::{check_index, show_index};
pub use surveying::{SurveyFault, describe_rows, find_file_delimiter, survey_rows};
