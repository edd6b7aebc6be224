//! Markup that is well formed by construction.
//!
//! The functions here add elements and other pieces of a document to a text: start tags, texts, end
//! tags. A caller's contract names the document. By [`documents_read_back`], every document's text
//! is read back as that document.

mod names;
mod writing;

pub use names::{Key, Tag};
pub use writing::{
    Attribute, documents_read_back, push_element, push_end, push_parted, push_start, push_text,
};
