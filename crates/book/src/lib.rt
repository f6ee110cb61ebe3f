// The year book: begin, append and take up, on lent bytes; and what is read of a book.
#![tactic(auto)]

mod book;
mod book_error;
mod bytes;
mod checked_entry;
mod entries;
mod entry;
mod layout;
mod promised;
mod reader;
mod record;
mod session;
mod versions;

pub use book::{BookState, Reply, append, begin};
pub use book_error::BookError;
pub use entries::{ReadBook, read_book, take_up};
pub use layout::{FRONT_SIZE, LENGTH_SIZE};
pub use promised::promises;
pub use reader::read_record;
pub use record::ReadRecord;
pub use session::{append_in_session, begin_in_session, take_up_in_session};
