//! What is sent between two messages.
ghost use Rattle.std.specs.Prelude.{◌≡◌, IfOk, IfSome, OnOk};
ghost use Rattle.serde_json.specs.View.{view};
ghost use Rattle.ftl_lsp.specs.Sessions.{Shows, Unasked, session_of};

use crate::sessions::phases::Phase;
use crate::sessions::server::Server;
use serde_json::Value;
use std::alloc::AllocError;

impl Server {
    /// What is sent before the next message is taken: a notice, or the diagnostics of a document of which is to be
    /// published again. None where there is nothing.
    pub(crate) fn next_unasked(&mut self, is_idle: bool) -> Result<Option<Value>, AllocError>
        ensures same { OnOk result (session_of self.new ≡ session_of self.old) }
        ensures unasked { IfOk result (λ sent. IfSome sent
            (λ value. Unasked (session_of self.old) (view value))) }
    {
        match self.next_notice()? {
            Some(notice) => Ok(Some(notice)),
            None => self.republish_next(is_idle),
        }
    }

    /// A notice that is still to be shown, as long as the session runs. None where there is none left.
    fn next_notice(&mut self) -> Result<Option<Value>, AllocError>
        ensures same { OnOk result (session_of self.new ≡ session_of self.old) }
        ensures shows { IfOk result (λ sent. IfSome sent
            (λ value. Shows (session_of self.old) (view value))) }
    {
        let Phase::Running = self.phase else {
            return Ok(None);
        };
        match self.notices.pop() {
            Some(notice) => Ok(Some(notice.form(self.alloc)?)),
            None => Ok(None),
        }
    }
}
