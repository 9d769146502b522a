//! A language server for Fluent Translation Lists: the protocol's frames, places and answers.
#![tactic(auto)]

mod diagnostics;
mod documents;
mod escapes;
mod limits;
mod requests;
mod sessions;
mod workspace;

pub use diagnostics::Diagnostic;
pub use documents::Document;
pub use documents::changes::{Change, text_after};
pub use documents::occurrences::{Name, NameKind, Occurrence};
pub use documents::offsets::byte_of;
pub use documents::positions::{Position, Positions};
pub use limits::{BODY_LIMIT, HEADER_LIMIT, NESTING_LIMIT};
pub use requests::formatting::formatted_text;
pub use requests::semantic_tokens::{SemanticToken, encoded_tokens, semantic_tokens_of};
pub use requests::token::{Token, TokenKind};
pub use requests::tokens::tokens_of;
pub use sessions::endings::Ending;
pub use sessions::frames::{FrameFault, Framing, first_frame};
pub use sessions::methods::Method;
pub use sessions::phases::{ErrorCode, Phase, RenameFault};
pub use sessions::serve;
pub use sessions::server::Server;
pub use workspace::closed_files::ClosedFile;
