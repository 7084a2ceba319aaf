//! The lines of a certificate's tree, kept one after the other, and written as its text.
//!
//! A search puts a line as soon as it knows it, and cuts back to an earlier length where what it tried is thrown
//! away. No tree is built. The lines lie in one vector, so that a range of them is moved or copied at once. Each takes 16 bytes;
//! one whose numbers do not fit 32 bits stands in a list of its own, and the 16 bytes say where. A clause sees an `Arena` as the
//! list of its lines.
//!
//! - `put` and `put_all` append lines. They ask for memory only where there is no room, which a cut leaves: then for twice as much
//!   as there was, or for what is needed where that is more, and the lines that are there are copied. So a line that is put alone
//!   is copied about once, however many come.
//! - `replace` puts lines in place of others in the midst. It moves all that come after within the vector, and asks for memory
//!   where there are more lines than those that go, and for the new ones alone, which it keeps for the next time.
//! - `put_by` moves the last lines to another arena, and `bring_back` moves them from there to the end: so lines that are known
//!   early wait for those that stand before them. A pair of calls copies each line twice, and asks for memory only where an arena
//!   gets longer than it ever was, and for each line whose numbers do not fit 32 bits.
//! - `copied` makes an arena of the last lines, and `put_copy` appends those of another; `cursor` goes over all.
//! - `cut` keeps the first lines, and `len` counts them.
//! - `write_from` writes the text of the certificate that has a head and these lines. It takes no memory: each line
//!   is spelled into a buffer on the stack, and 65,536 bytes are gathered before a sink gets them.
#![tactic(auto)]

mod arena;
mod laws;
mod line_cursor;
mod moving;
mod read;
mod short;
mod spell;
mod write;

pub use arena::Arena;
pub use laws::lines_fit;
pub use line_cursor::LineCursor;
