//! The lines of callers: what each gives, what is put on it, and one line heard as a command, a look at a board or a crew call.
#![tactic(auto)]

mod call_log;
mod caller_line;
mod crew_line;
mod file_line;
mod heard;
mod hearing;
mod line_buf;
mod look_line;
mod memory_line;
mod only_record;
mod request;
mod said;
mod texts_out;

pub use caller_line::CallerLine;
pub use file_line::FileLine;
pub use heard::Heard;
pub use hearing::{hear, hear_next, hear_next_request, hear_request};
pub use line_buf::LineBuf;
pub use memory_line::MemoryLine;
pub use request::Request;
pub use said::Said;
