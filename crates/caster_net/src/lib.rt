//! What the program runs on: the readers, the writers, the files and the sockets of std as the
//! sources, sinks, stores, links, doors, gates and streets of `cast_io`, and the input of a stop as
//! the consoles of `cast_console`. For contracts alone each
//! has a record of what those gave and took, which takes no memory. That a call of std did what its
//! answer says is outside of every proof.
#![tactic(auto)]

mod adapters;
mod bells;
mod console;
mod door;
mod gate;
mod halt;
mod heed;
mod keep;
mod link;
mod note_out;
mod note_sink;
mod notes;
mod options;
mod quiet;
mod redial;
mod room;
mod street;
mod waiting;
mod watch;
mod wire;
mod words;
mod yard;

pub use adapters::{FileStore, ReaderSource, WriterSink};
pub use bells::Bells;
pub use console::{InputConsole, InputLodge};
pub use door::TcpDoor;
pub use gate::TcpGate;
pub use halt::Halt;
pub use link::TcpLink;
pub use note_out::NoteOut;
pub use note_sink::NoteSink;
pub use street::TcpStreet;
pub use wire::Wire;
