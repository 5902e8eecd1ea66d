//! A text that comes in pieces, line by line, in whatever form.
//!
//! A form is an `impl` of `TextForm`: what it keeps between two lines, and which line may follow. What takes the parts of a
//! text is an `impl` of `TakesParts`; `read_text_parts` reads a page of any form for any of them. Its promise: the parts and the
//! first fault of a text are the same wherever it is cut, and a text has one answer.
#![tactic(auto)]

mod coming;
mod form;
mod laws;
mod stream;

pub use form::TextForm;
pub use laws::texts_have_one_answer;
pub use stream::{TakesParts, read_text_parts};
