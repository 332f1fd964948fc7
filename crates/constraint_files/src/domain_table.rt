//! The domains of the records read so far.

ghost use Rattle.std.specs.Prelude.{◌≡◌, [], IfOk};
ghost use Rattle.constraint_files.specs.Domains.{add_domain_row, put_domain};
ghost use Rattle.constraint_files.specs.Reads.{Changes};

use crate::domain_row::domain_row;
use crate::error::{RowErr, RowWhy};
use crate::record::CsvRecord;
use crate::table::Table;
use pack_defs::domain::Domain;
use pack_defs::items::Items;
use pack_defs::limits::MOST_DOMAIN_ROWS;
use std::alloc::{AllocError as NoMemory, Global};
use std::collections::BTreeMap;
use std::marker::Model;

/// The domains of the records read so far.
#[derive(Drop)]
pub(crate) struct DomainTable {
    rows: BTreeMap<u32, Items<u8>>,
}

impl Model for DomainTable {
    ghost use Rattle.std.specs.Prelude.{List, map};
    ghost use Rattle.pack_defs.specs.declared.domain.Domain.{Domain};

    ghost Value = { List Domain };

    ghost view = { λ t. map (λ e. record { station = e.0; channels = e.1 }) t.rows.entries };
}

impl DomainTable {
    pub(crate) fn new(alloc: Global) -> DomainTable
        ensures { result ≡ [] }
    {
        DomainTable {
            rows: BTreeMap::new(alloc),
        }
    }

    /// Adds the domain of a station that has none yet, if the rows are not too many. After an error the table is unusable.
    fn put(&mut self, domain: Domain) -> Result<(), RowErr>
        ensures { Changes (put_domain self.old domain) self.new result }
    {
        let is_full = self.rows.len() >= MOST_DOMAIN_ROWS;
        let Domain { station, channels } = domain;
        if self.rows.insert(station, channels)?.is_some() {
            return Err(RowErr::Refused(RowWhy::SecondDomain));
        }
        if is_full {
            return Err(RowErr::Refused(RowWhy::TooMany));
        }
        Ok(())
    }

    /// Returns the domains, ascending by station.
    pub(crate) fn into_list(self, alloc: Global) -> Result<Vec<Domain>, NoMemory>
        ensures { IfOk result (λ v. v.items ≡ self) }
    {
        let mut list = Vec::with_capacity(alloc, self.rows.len())?;
        let DomainTable { rows } = self;
        for (station, channels) in rows {
            list.push(Domain { station, channels })?;
        }
        Ok(list)
    }
}

impl Table for DomainTable {
    ghost add = { add_domain_row };

    fn add_record(&mut self, alloc: Global, fields: &CsvRecord) -> Result<(), RowErr> {
        self.put(domain_row(alloc, fields)?)
    }
}
