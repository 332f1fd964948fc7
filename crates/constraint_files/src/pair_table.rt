//! The pairs of the records read so far.

ghost use Rattle.std.specs.Prelude.{◌≡◌, [], ℕ, List, Option, fold, IfOk, OnOk, length, nat_lt, option_map};
ghost use Rattle.pack_defs.specs.Limits.{MOST_PAIRS};
ghost use Rattle.pack_defs.specs.Lists.{is_in};
ghost use Rattle.constraint_files.specs.Domains.{channels_of};
ghost use Rattle.constraint_files.specs.Reads.{Changes};
ghost use Rattle.constraint_files.specs.PairTable.{add_row, add_row_over, pair_of, with_kept, with_other, with_pair};

use crate::domains::Domains;
use crate::error::{RowErr, RowWhy};
use crate::in_order::in_order;
use crate::interference_row::{Row, interference_row};
use crate::plain_lines::one_more;
use crate::record::CsvRecord;
use crate::table::Table;
use pack_defs::limits::MOST_PAIRS;
use pack_defs::pair::Pair;
use std::alloc::{AllocError as NoMemory, Global};
use std::collections::BTreeSet;
use std::marker::Model;
use std::mem;

/// The pairs and counts of the records read so far. Recent pairs are stored in `last` as they came, duplicates included, since sorting
/// a list is fast. They go into the tree only when so many came that their exact number must be known after each record.
#[derive(Drop)]
pub(crate) struct PairTable {
    tree: BTreeSet<Pair>,
    last: Vec<Pair>,
    self_pairs: u64,
    strangers: u64,
}

impl Model for PairTable {
    ghost use Rattle.std.specs.Prelude.{fold};
    ghost use Rattle.constraint_files.specs.PairTable.{PairsView, with_pair};

    ghost Value = { PairsView };

    ghost view = { λ t. record { list = fold with_pair t.tree.keys t.last.items; self_pairs = t.self_pairs; strangers = t.strangers } };
}

/// Returns the pair of `station` on channel `a` and `other` on channel `b`, with the lesser station first.
fn pair_of(station: u32, a: u8, other: u32, b: u8) -> Pair
    ensures { result ≡ pair_of station a other b }
{
    if station < other {
        Pair {
            f: station,
            a,
            g: other,
            b,
        }
    } else {
        Pair {
            f: other,
            a: b,
            g: station,
            b: a,
        }
    }
}

/// Checks whether a row's channel is in the domain of its station; `None` if the station has no domain.
fn is_own_channel(domains: &Domains, row: &Row) -> Option<bool>
    ensures { result ≡ option_map (λ c. is_in c row.now.channel) (channels_of domains.now row.now.station) }
{
    match domains.domain(row.station) {
        Some(channels) => Some(channels.contains(&row.channel)),
        None => None,
    }
}

/// Inserts a pair into a tree, unless the tree has it.
fn put_in_tree(tree: &mut BTreeSet<Pair>, pair: Pair) -> Result<(), NoMemory>
    ensures { OnOk result (tree.new.keys ≡ with_pair tree.old.keys pair) }
{
    tree.insert(pair)?;
    Ok(())
}

/// Inserts these pairs into a tree.
fn put_all(tree: &mut BTreeSet<Pair>, pairs: Vec<Pair>) -> Result<(), NoMemory>
    ensures { OnOk result (tree.new.keys ≡ fold with_pair tree.old.keys pairs.items) }
{
    for pair in pairs {
        put_in_tree(tree, pair)?;
    }
    Ok(())
}

/// Inserts these pairs into a tree, and returns the pairs of the tree, ascending.
fn in_tree(alloc: Global, tree: BTreeSet<Pair>, pairs: Vec<Pair>) -> Result<Vec<Pair>, NoMemory>
    ensures { IfOk result (λ list. list.items ≡ fold with_pair tree.keys pairs.items) }
{
    let mut tree = tree;
    put_all(&mut tree, pairs)?;
    let mut list = Vec::with_capacity(alloc, tree.len())?;
    for pair in tree {
        list.push(pair)?;
    }
    Ok(list)
}

/// Returns the same as `in_tree`. If the tree is empty, the pairs are sorted.
fn ascending(alloc: Global, tree: BTreeSet<Pair>, pairs: Vec<Pair>) -> Result<Vec<Pair>, NoMemory>
    ensures { IfOk result (λ list. list.items ≡ fold with_pair tree.keys pairs.items) }
{
    if tree.is_empty() {
        return Ok(in_order(pairs));
    }
    in_tree(alloc, tree, pairs)
}

impl PairTable {
    pub(crate) fn new(alloc: Global) -> PairTable
        ensures { result ≡ record { list = []; self_pairs = 0; strangers = 0 } }
    {
        PairTable {
            tree: BTreeSet::new(alloc),
            last: Vec::new(alloc),
            self_pairs: 0,
            strangers: 0,
        }
    }

    /// Adds a pair, unless the table has it.
    fn put(&mut self, pair: Pair) -> Result<(), NoMemory>
        ensures { OnOk result (self.new ≡ record { list = with_pair self.old.list pair; self_pairs = self.old.self_pairs; strangers = self.old.strangers }) }
    {
        self.last.push(pair)?;
        Ok(())
    }

    /// Adds the pair of a row's station and `other`, if it is kept. `own` says whether the row's channel is in its station's domain,
    /// and is `None` without a domain; `theirs` is the domain of the other station.
    fn add_kept(
        &mut self,
        row: &Row,
        own: Option<bool>,
        theirs: Option<&[u8]>,
        other: u32,
    ) -> Result<(), NoMemory>
        ensures { OnOk result ((channels : Option (List ℕ)) → own ≡ option_map (λ c. is_in c row.now.channel) channels →
            self.new ≡ with_kept channels (option_map (λ c. c.now) theirs.entry) row.now self.old other) }
    {
        let (Some(is_own), Some(theirs)) = (own, theirs) else {
            self.strangers = one_more(self.strangers)?;
            return Ok(());
        };
        if is_own && theirs.contains(&row.other_channel) {
            self.put(pair_of(row.station, row.channel, other, row.other_channel))?;
        }
        Ok(())
    }

    /// Adds what a row says about its station and `other`. `own` says whether the row's channel is in its station's domain, and is
    /// `None` without a domain.
    fn add_other(
        &mut self,
        domains: &Domains,
        row: &Row,
        own: Option<bool>,
        other: u32,
    ) -> Result<(), NoMemory>
        requires { own ≡ option_map (λ c. is_in c row.now.channel) (channels_of domains.now row.now.station) }
        ensures { OnOk result (self.new ≡ with_other domains.now row.now self.old other) }
    {
        if other == row.station {
            self.self_pairs = one_more(self.self_pairs)?;
            return Ok(());
        }
        self.add_kept(row, own, domains.domain(other), other)
    }

    /// Adds the pairs and counts of a row.
    fn add_row(&mut self, domains: &Domains, row: &Row) -> Result<(), NoMemory>
        ensures { OnOk result (self.new ≡ fold (with_other domains.now row.now) self.old row.now.others) }
    {
        let own = is_own_channel(domains, row);
        for other in row.others.as_slice() {
            self.add_other(domains, row, own, *other)?;
        }
        Ok(())
    }

    /// Adds the pairs and counts of a record. After an error the table is unusable.
    fn add_record(
        &mut self,
        alloc: Global,
        domains: &Domains,
        fields: &CsvRecord,
    ) -> Result<(), RowErr>
        ensures { Changes (add_row domains.now self.old fields.now) self.new result }
    {
        let row = interference_row(alloc, fields)?;
        self.add_row(domains, &row)?;
        if self.has_too_many(alloc)? {
            return Err(RowErr::Refused(RowWhy::TooMany));
        }
        Ok(())
    }

    /// Moves the recent pairs into the tree, and returns the number of its pairs.
    fn merge_last(&mut self, alloc: Global) -> Result<usize, NoMemory>
        ensures same { OnOk result (self.new ≡ self.old) }
        ensures count { IfOk result (λ n. n ≡ length self.old.list) }
    {
        let last = mem::replace(&mut self.last, Vec::new(alloc));
        put_all(&mut self.tree, last)?;
        Ok(self.tree.len())
    }

    /// Checks whether the pairs exceed the limit.
    fn has_too_many(&mut self, alloc: Global) -> Result<bool, NoMemory>
        ensures same { OnOk result (self.new ≡ self.old) }
        ensures count { IfOk result (λ b. b ≡ nat_lt MOST_PAIRS (length self.old.list)) }
    {
        let count = self.last.len();
        if count <= MOST_PAIRS && self.tree.len() <= MOST_PAIRS - count {
            return Ok(false);
        }
        Ok(self.merge_last(alloc)? > MOST_PAIRS)
    }

    /// Returns the pairs, ascending, and the counts.
    pub(crate) fn into_parts(self, alloc: Global) -> Result<(Vec<Pair>, u64, u64), NoMemory>
        ensures { IfOk result (λ p. record { list = p.0.items; self_pairs = p.1; strangers = p.2 } ≡ self) }
    {
        let PairTable {
            tree,
            last,
            self_pairs,
            strangers,
        } = self;
        let list = ascending(alloc, tree, last)?;
        Ok((list, self_pairs, strangers))
    }
}

/// The pairs and counts of the records read so far, and the domains over which they are read.
#[derive(Drop)]
pub(crate) struct PairsOver<'a> {
    domains: &'a Domains,
    table: PairTable,
}

impl<'a> Model for PairsOver<'a> {
    ghost use Rattle.constraint_files.specs.PairTable.{RowsView};

    ghost Value = { RowsView };

    ghost view = { λ p. record { domains = p.domains.now; pairs_view = p.table } };
}

impl<'a> PairsOver<'a> {
    pub(crate) fn new(alloc: Global, domains: &'a Domains) -> PairsOver<'a>
        ensures { result ≡ record { domains = domains.now; pairs_view = record { list = []; self_pairs = 0; strangers = 0 } } }
    {
        PairsOver {
            domains,
            table: PairTable::new(alloc),
        }
    }

    /// Returns the table of the pairs.
    pub(crate) fn into_table(self) -> PairTable
        ensures { result ≡ self.entry.pairs_view }
    {
        self.table
    }
}

impl<'a> Table for PairsOver<'a> {
    ghost add = { add_row_over };

    fn add_record(&mut self, alloc: Global, fields: &CsvRecord) -> Result<(), RowErr> {
        self.table.add_record(alloc, self.domains, fields)
    }
}
