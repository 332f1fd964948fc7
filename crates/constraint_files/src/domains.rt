//! The reader of a domains file: from its bytes to the stations and their channels.
//!
//! `DomainReader` reads a file in pieces, `read_domains` a file in memory.

ghost use Rattle.std.specs.Prelude.{◌≡◌, ◌++◌, [], ℕ, IfOk, List, Ok};
ghost use Rattle.std.specs.Option.{option_map};
ghost use Rattle.pack_defs.specs.Book.{AreInOrder};
ghost use Rattle.constraint_files.specs.Domains.{channels_of, domains_fed, domains_of};
ghost use Rattle.constraint_files.specs.Reads.{Reads};

use crate::domain_table::DomainTable;
use crate::error::ReadErr;
use crate::line_reader::LineReader;
use pack_defs::domain::Domain;
use std::alloc::{AllocError as NoMemory, Global};
use std::marker::Model;

/// The stations of a domains file and the channels that each may use.
#[derive(Debug, Drop)]
pub struct Domains {
    list: Vec<Domain>,
}

impl Model for Domains {
    ghost use Rattle.std.specs.Prelude.{List};
    ghost use Rattle.pack_defs.specs.Book.{AreInOrder};
    ghost use Rattle.pack_defs.specs.declared.domain.Domain.{Domain};

    ghost Value = { List Domain };

    ghost view = { λ d. d.list.items };

    ghost invariant = { λ d. AreInOrder d.list.items };
}

impl Domains {
    /// Returns the domains, ascending by station. The channels of each domain ascend.
    pub fn list(&self) -> &[Domain]
        ensures list { result.now ≡ self.now }
        ensures in_order { AreInOrder self.now }
    {
        &self.list
    }

    /// Returns the channels of a station, or `None` if the file has no row of the station. Costs one binary search.
    pub fn domain(&self, f: u32) -> Option<&[u8]>
        ensures { option_map (λ c. c.now) result ≡ channels_of self.now f }
    {
        match self.list.binary_search_by_key(&f, |d| d.station) {
            Ok(i) => Some(self.list[i].channels.as_slice()),
            Err(_) => None,
        }
    }
}

/// Reads a domains file that comes in pieces, cut anywhere. [`read_domains`] documents the meaning of its records and their errors. A
/// line within one piece is read in place; a line that crosses the end of a piece is stored until it is complete.
#[derive(Drop)]
pub struct DomainReader {
    alloc: Global,
    lines: LineReader<DomainTable>,
}

impl Model for DomainReader {
    ghost use Rattle.std.specs.Prelude.{List};
    ghost use Rattle.pack_defs.specs.Book.{AreInOrder};
    ghost use Rattle.pack_defs.specs.declared.domain.Domain.{Domain};
    ghost use Rattle.constraint_files.specs.LineReader.{FeedState};

    ghost Value = { FeedState (List Domain) };

    ghost view = { λ r. r.lines };

    ghost invariant = { λ r. AreInOrder r.lines.made };
}

impl DomainReader {
    /// Returns a reader before the first byte.
    ///
    /// # Errors
    ///
    /// `NoMemory` if memory runs out.
    pub fn make(alloc: Global) -> Result<DomainReader, NoMemory>
        ensures { IfOk result (λ r. domains_fed [] ≡ Ok r) }
    {
        Ok(DomainReader {
            alloc,
            lines: LineReader::new(alloc, DomainTable::new(alloc)),
        })
    }

    /// Reads the next piece of the file.
    ///
    /// # Errors
    ///
    /// `Row` if a record of the lines complete so far is invalid: the first such record, as in [`read_domains`]. `NoMemory` if memory
    /// runs out. After an error the reader is gone.
    pub fn feed(self, piece: &[u8]) -> Result<DomainReader, ReadErr>
        ensures { (bytes : List ℕ) → domains_fed bytes ≡ Ok self → Reads (domains_fed (bytes ++ piece.now)) result }
    {
        let DomainReader { alloc, lines } = self;
        Ok(DomainReader {
            alloc,
            lines: lines.feed(alloc, piece)?,
        })
    }

    /// Returns the domains of the complete file, which ends here. The last line needs no line feed.
    ///
    /// # Errors
    ///
    /// Those of [`read_domains`].
    pub fn finish(self) -> Result<Domains, ReadErr>
        ensures { (bytes : List ℕ) → domains_fed bytes ≡ Ok self → Reads (domains_of bytes) result }
    {
        let DomainReader { alloc, lines } = self;
        let table = lines.finish(alloc)?;
        Ok(Domains {
            list: table.into_list(alloc)?,
        })
    }
}

/// Reads a domains file. Each record is `DOMAIN,facility,channel,...`: the station may use these channels. Channels below 14 are dropped.
///
/// A file is cut into lines at the byte 0A. The records of a line are those that the reader of `csv` returns for the line by itself, so
/// a quoted field never extends past its line. Spaces and tabs around a field are dropped, then empty fields at a record's end. A
/// record with no field left is skipped. A number is one or more ASCII digits, leading zeros allowed, at most 4,294,967,295.
///
/// # Errors
///
/// `Row` at the first invalid record, with its line number, counted from 1, and its first error:
///
/// - fewer than two fields;
/// - a first field other than `DOMAIN`;
/// - a later field that is no number;
/// - a channel outside 2 to 51;
/// - a facility that has a record already;
/// - the 65,537th domain.
///
/// `NoMemory` if memory runs out.
pub fn read_domains(alloc: Global, bytes: &[u8]) -> Result<Domains, ReadErr>
    ensures { Reads (domains_of bytes.now) result }
{
    DomainReader::make(alloc)?.feed(bytes)?.finish()
}
