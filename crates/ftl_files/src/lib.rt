//! The files of a project and of an editor's workspace: which ones there are, what they hold, how one is replaced, and
//! what the file `ftl.toml` says.
#![tactic(auto)]

mod attributes;
mod comment_rules;
mod disk;
mod excluded;
mod file_system;
mod folders;
mod ignore_rules;
mod kinds;
mod languages;
mod levels;
mod limits;
mod listing;
mod memory;
mod missing;
mod nearness;
mod options;
mod originals;
mod paths;
mod patterns;
mod reading;
mod replacing;
mod settings;
mod settings_fault;
mod settings_folders;
mod settings_kinds;
mod spelling;
mod store;
mod uris;

pub use comment_rules::CommentRules;
pub use disk::Disk;
pub use excluded::Excluded;
pub use file_system::FileSystem;
pub use folders::Folders;
pub use ignore_rules::{IgnoreRule, ignore_rule_of_text, is_ignored};
pub use kinds::{
    DIFFERENCE_NAMES, FINDING_NAMES, ReportedKind, kind_of_name, reported_kind_of_name,
};
pub use languages::{folder_of_languages, language_of};
pub use levels::Levels;
pub use limits::{BYTES_LIMIT, FILE_LIMIT, FILES_LIMIT, FOLDERS_LIMIT};
pub use listing::{Listing, list};
pub use memory::Memory;
pub use missing::{addable_parts, added_names, is_part_reported};
pub use nearness::shared_folders;
pub use options::{
    BlankLines, Color, Form, Output, Reading, blank_lines_of_name, color_of_name, output_of_name,
};
pub use originals::original_of;
pub use paths::{SeenPaths, absolute_path, is_below};
pub use reading::{SourceFile, SourceFiles, read_files};
pub use replacing::replace_file;
pub use settings::{FolderRules, Settings, settings_of};
pub use settings_fault::SettingsFault;
pub use spelling::nearest_name;
pub use store::Store;
pub use uris::{path_of_uri, uri_of_path};
