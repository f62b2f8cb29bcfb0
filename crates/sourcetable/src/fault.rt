//! Why a line is no record, or a text no sourcetable.
ghost use Rattle.std.specs.Prelude.{◌≡◌};
ghost use Rattle.sourcetable.specs.declared.fault.RecordFault.TheVariants as records;
ghost use Rattle.sourcetable.specs.declared.fault.TableFault.TheVariants as tables;
ghost use Rattle.sourcetable.specs.declared.fault.LineFault.TheVariants as line_faults;

use std::alloc::AllocError;
use thiserror::Error;

/// Why a line is no record. The faults are tested in this order, but for `Memory`.
#[derive(Clone, Copy, Debug, Error)]
pub enum RecordFault {
    /// It does not begin with `STR;`, `CAS;` or `NET;`.
    #[error("not a record of a sourcetable")]
    Kind,
    /// It has fewer fields than a record of its kind.
    #[error("too few fields")]
    Fields,
    /// The byte at this place, from 0, is the first that is CR or LF.
    #[error("byte {0} is a line end")]
    Byte(usize),
    /// There is no memory for the record.
    #[error("out of memory")]
    Memory,
}

impl From<AllocError> for RecordFault {
    ghost from_gives = { λ _ e. e ≡ records.Memory };

    fn from(_e: AllocError) -> RecordFault {
        RecordFault::Memory
    }
}

/// Why a text is no sourcetable. Lines are numbered from 1.
#[derive(Clone, Copy, Debug, Error)]
pub enum TableFault {
    /// It has more than 1 MiB, 1,048,576 bytes.
    #[error("more than 1048576 bytes")]
    Long,
    /// This line, the first faulty one, does not begin with `STR;`, `CAS;` or `NET;`.
    #[error("line {0}: not a record of a sourcetable")]
    Kind(u32),
    /// This line, the first faulty one, has fewer fields than a record of its kind.
    #[error("line {0}: too few fields")]
    Fields(u32),
    /// No line is faulty, and none ends the table.
    #[error("no line ENDSOURCETABLE")]
    NoEnd,
    /// There is no memory for the table.
    #[error("out of memory")]
    Memory,
}

impl From<AllocError> for TableFault {
    ghost from_gives = { λ _ e. e ≡ tables.Memory };

    fn from(_e: AllocError) -> TableFault {
        TableFault::Memory
    }
}

/// Why a line of a table is no record.
#[derive(Clone, Copy)]
pub(crate) enum LineFault {
    /// It does not begin with `STR;`, `CAS;` or `NET;`.
    Kind,
    /// It has fewer fields than a record of its kind.
    Fields,
    /// There is no memory for the record.
    Memory,
}

impl From<AllocError> for LineFault {
    ghost from_gives = { λ _ e. e ≡ line_faults.Memory };

    fn from(_e: AllocError) -> LineFault {
        LineFault::Memory
    }
}

impl From<LineFault> for RecordFault {
    ghost use Rattle.sourcetable.specs.Reading.{record_fault};

    ghost from_gives = { λ fault e. e ≡ record_fault fault };

    fn from(fault: LineFault) -> RecordFault {
        match fault {
            LineFault::Kind => RecordFault::Kind,
            LineFault::Fields => RecordFault::Fields,
            LineFault::Memory => RecordFault::Memory,
        }
    }
}

impl LineFault {
    ghost use Rattle.sourcetable.specs.Reading.{table_fault};

    /// The fault of a table whose line of this number has this one.
    pub(crate) fn at(self, number: u32) -> TableFault
        ensures { result ≡ table_fault number self }
    {
        match self {
            LineFault::Kind => TableFault::Kind(number),
            LineFault::Fields => TableFault::Fields(number),
            LineFault::Memory => TableFault::Memory,
        }
    }
}
