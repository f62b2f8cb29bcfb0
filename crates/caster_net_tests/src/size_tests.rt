//! What the adapters take: as much as before they had a record.
use cast_io::Journal;
use caster_net::{FileStore, ReaderSource, TcpDoor, TcpLink, TcpStreet, Wire, WriterSink};
use std::mem::size_of;
use std::os::unix::net::UnixStream;

#[test]
fn a_journal_has_no_bytes(rt: HostRuntime) {
    assert_eq!(rt; size_of::<Journal<u8>>(), 0);
    assert_eq!(rt; size_of::<Journal<TcpLink<'_>>>(), 0);
}

#[test]
fn a_record_adds_nothing_to_a_reader_a_writer_and_a_stream(rt: HostRuntime) {
    assert_eq!(rt;
        size_of::<ReaderSource<u64>>(),
        size_of::<(u64, u64, u64)>()
    );
    assert_eq!(rt; size_of::<WriterSink<u64>>(), size_of::<(u64, u64)>());
    assert_eq!(rt;
        size_of::<Wire<UnixStream>>(),
        size_of::<(UnixStream, u64)>()
    );
}

// The numbers were measured of these types with their records taken out. Of a link 40 bytes show
// for how long it was quiet, where a read found it so, and 120 how its peer takes what it is sent.
#[test]
fn a_record_adds_nothing_to_links_doors_streets_and_stores(rt: HostRuntime) {
    assert_eq!(rt; size_of::<TcpLink<'_>>(), 392);
    assert_eq!(rt; size_of::<TcpDoor<'_>>(), 224);
    assert_eq!(rt; size_of::<TcpStreet<'_>>(), 56);
    assert_eq!(rt; size_of::<FileStore<'_>>(), 32);
}
