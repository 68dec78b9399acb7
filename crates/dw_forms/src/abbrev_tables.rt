//! The abbreviation tables of a section (DWARF 5, 7.5.3).

ghost use Rattle.std.specs.Prelude.{◌≡◌, ◌<◌, ◌≤◌, ◌==◌, ℕ, List, [], length, find, option_map};
ghost use Rattle.std.specs.Prelude.{IfOk, IfErr, IfSome, OnOk};
ghost use Rattle.dw_forms.specs.AbbrevReading.{table_at};
ghost use Rattle.dw_forms.specs.DeclaredLists.{HasList};
ghost use Rattle.dw_forms.specs.KeptDecls.{kept_view, decl_view, table_in, tables_of, decl_number_in, AreReadable};
ghost use Rattle.dw_forms.specs.ListOffsets.{AreListsOf, MoreLists};
ghost use Rattle.dw_forms.specs.Offsets.{AreKnownFrom, IsOffset};
ghost use Rattle.dw_forms.specs.TableStarts.{NoTable, IfNoDecl, IsNextAt, IsFront, IsTableIn, Stay};
ghost use Rattle.dw_forms.specs.TableStarts.{IsAddedTable, IsTableRead};
ghost use Rattle.dw_forms.specs.Abbrev.{AreDeclarations, TableFails};
ghost use Rattle.dw_forms.specs.AbbrevTables.{tables_in, AreSearchable, AreTablesOf};
ghost use Rattle.dw_forms.specs.Chains.{chain_in};
ghost use Rattle.dw_forms.specs.Stops.{IfFault, FailsOrMemory};

use crate::abbrev_reader::{read_table, tag_and_children, take_code};
use crate::attribute_lists::AttributeLists;
use crate::attributes::Attributes;
use crate::chains::Chains;
use crate::constants::DW_AT_declaration;
use crate::decl::{DeclAt, Decls, KeptDecl};
use crate::fault::{AbbrevFault, DeclFault, Stop};
use crate::known_places::KnownPlace;
use crate::labels::Labels;
use crate::list_reader::KeptLists;
use crate::offsets::{Offsets, Placed};
use std::alloc::{AllocError, Global};

/// The declaration at an offset, and the offset after it; or none at the code 0. A code may be there twice.
fn next_at(
    lists: &mut KeptLists,
    section: &[u8],
    offset: usize,
) -> Result<(Option<KeptDecl>, usize), Stop<DeclFault>>
    requires offset { IsOffset section.now offset }
    requires lists { AreListsOf section.now lists.old }
    ensures more { OnOk result (MoreLists section.now lists.old lists.new) }
    ensures next { IfOk result (λ x. IsNextAt section.now lists.new.lists.nodes.items offset x.0 x.1) }
    ensures fault { IfErr result (IfFault (λ _. IfNoDecl section.now offset)) }
{
    let mut bytes = &section[offset..];
    let code = take_code(&mut bytes)?;
    if code == 0 {
        return Ok((None, section.len() - bytes.len()));
    }
    let (tag, has_children) = tag_and_children(&mut bytes)?;
    let (first, end) = lists.read(section, section.len() - bytes.len())?;
    let attributes = Attributes::new(&lists.lists, first);
    let decl = KeptDecl {
        code,
        tag,
        has_children,
        is_type: tag.is_type(),
        declared: attributes.flag(DW_AT_declaration),
        whole: attributes.whole(),
        step: lists.lists.step(first),
        first,
        rest: 0,
        bits: attributes.bits(),
        first_place: 0,
    };
    Ok((Some(decl), end))
}

/// Reads the declarations from an offset on, up to the end of the table or to a declaration that is kept, and returns
/// them and the table after them. They are in no table yet.
fn read_front(
    alloc: Global,
    starts: &Offsets,
    lists: &mut KeptLists,
    section: &[u8],
    offset: usize,
) -> Result<(Vec<Placed<KeptDecl>>, u32), Stop<DeclFault>>
    requires offset { IsOffset section.now offset }
    requires lists { AreListsOf section.now lists.old }
    requires known { AreKnownFrom offset starts.now.starts.items starts.now.numbers.items }
    ensures more { OnOk result (MoreLists section.now lists.old lists.new) }
    ensures front { IfOk result (λ x.
        IsFront section.now lists.new.lists.nodes.items starts.now.starts.items x.0.items offset x.1) }
    ensures fault { IfErr result (IfFault (λ _. NoTable section.now offset)) }
{
    let mut decls = Vec::new(alloc);
    let mut at = offset;
    loop {
        let rest = starts.find(at);
        if rest != 0 {
            return Ok((decls, rest));
        }
        let (next, after) = next_at(lists, section, at)?;
        let Some(item) = next else {
            return Ok((decls, 0));
        };
        decls.push(Placed { at, item })?;
        at = after;
    }
}

/// The abbreviation tables of a section, with each declaration kept once. Declarations are numbered from 1. A table has
/// the number of its first declaration; the table 0 has none.
#[derive(Debug, Drop)]
pub struct AbbrevTables {
    pub(crate) kept: Vec<KeptDecl>,
    /// The labels of their codes.
    pub(crate) labels: Labels,
    /// The chains of these labels.
    pub(crate) codes: Chains,
    /// The lists of their attributes.
    pub(crate) lists: KeptLists,
    /// The places of their attributes.
    pub(crate) places: Vec<KnownPlace>,
    /// The offsets at which the tables begin.
    pub(crate) starts: Offsets,
}

/// Keeps the declaration before a table, and returns the number of the table that begins with it. None if its code is
/// in the table already. The lists are what the clauses are about.
fn push(
    kept: &mut Vec<KeptDecl>,
    labels: &mut Labels,
    codes: &mut Chains,
    places: &mut Vec<KnownPlace>,
    lists: &AttributeLists,
    rest: u32,
    mut decl: KeptDecl,
) -> Result<Option<u32>, AllocError>
    requires rest { rest ≤ length kept.old.items }
    requires few { length kept.old.items < 0xffffffff }
    requires kept { AreReadable codes.old.links.items labels.old.long lists.now.nodes.items places.old.items
        kept.old.items }
    requires list { HasList lists.now.nodes.items decl.first decl.step decl.bits decl.declared decl.whole }
    ensures kept { OnOk result (AreReadable codes.new.links.items labels.new.long lists.now.nodes.items places.new.items
        kept.new.items) }
    ensures added { IfOk result (IsAddedTable (kept_view lists.now.nodes.items decl) rest
        (tables_of lists.now.nodes.items kept.old.items) (tables_of lists.now.nodes.items kept.new.items)) }
{
    kept.reserve(1)?;
    let label = labels.enter(decl.code)?;
    let Some(number) = codes.push(rest, label)? else {
        return Ok(None);
    };
    let first_place = places.len();
    Attributes::new(lists, decl.first).push_places(decl.bits, places)?;
    decl.rest = rest;
    decl.first_place = first_place;
    kept.push_reserved(decl);
    Ok(Some(number))
}

/// The fault of a table that can't be read.
fn fault_of_table(alloc: Global, section: &[u8], offset: usize) -> Stop<AbbrevFault>
    requires offset { offset ≤ length section.now }
    requires none { NoTable section.now offset }
    ensures broken { IfFault (TableFails section.now offset) result }
    // For callers that reason by steps.
    ensures exact { FailsOrMemory result (table_at section.now offset) }
{
    match read_table(alloc, section, offset) {
        Ok(_) => unreachable!(),
        Err(fault) => fault,
    }
}

impl AbbrevTables {
    /// No tables.
    pub fn new(alloc: Global) -> AbbrevTables
        ensures none { result.kept.items ≡ [] }
        ensures tables { (section : List ℕ) → AreTablesOf section result }
    {
        AbbrevTables {
            kept: Vec::new(alloc),
            labels: Labels::new(alloc),
            codes: Chains::new(alloc),
            lists: KeptLists::new(alloc),
            places: Vec::new(alloc),
            starts: Offsets::new(alloc),
        }
    }

    /// Keeps the declarations before a table, the last one first, and returns the number of the table that begins with
    /// the first. None if a code would be in a table twice. The section and the offset are what the clauses are about.
    /// Each declaration begins at an offset of its own, so that four bytes can say how many there are.
    fn keep(
        &mut self,
        section: &[u8],
        offset: usize,
        mut decls: Vec<Placed<KeptDecl>>,
        rest: u32,
    ) -> Result<Option<u32>, AllocError>
        requires fits { length section.now < 0xffffffff }
        requires tables { AreTablesOf section.now self.old }
        requires front { IsFront section.now self.old.lists.lists.nodes.items self.old.starts.starts.items decls.items
            offset rest }
        ensures tables { OnOk result (AreTablesOf section.now self.new) }
        ensures stay { OnOk result (Stay (tables_in self.old) (tables_in self.new)) }
        ensures whole { IfOk result (IsTableRead section.now (tables_in self.new) offset) }
    {
        let mut table = rest;
        while let Some(Placed { at, item: decl }) = decls.pop() {
            let kept = push(
                &mut self.kept,
                &mut self.labels,
                &mut self.codes,
                &mut self.places,
                &self.lists.lists,
                table,
                decl,
            )?;
            let Some(longer) = kept else {
                return Ok(None);
            };
            self.starts.push(at as u32)?;
            table = longer;
        }
        Ok(Some(table))
    }

    /// Reads the table that begins at an offset of .debug_abbrev, and returns its number. What is kept is not read
    /// again.
    pub fn read(
        &mut self,
        alloc: Global,
        section: &[u8],
        offset: usize,
    ) -> Result<u32, Stop<AbbrevFault>>
        requires offset { offset ≤ length section.now }
        requires fits { length section.now < 0xffffffff }
        requires tables { AreTablesOf section.now self.old }
        ensures found { IfOk result (IsTableIn section.now (tables_in self.new) offset) }
        ensures allowed { IfOk result (λ table. AreDeclarations (table_in (tables_in self.new) table)) }
        ensures fewer { IfOk result (λ table. length (table_in (tables_in self.new) table) < length section.now) }
        ensures tables { OnOk result (AreTablesOf section.now self.new) }
        ensures stay { OnOk result (Stay (tables_in self.old) (tables_in self.new)) }
        ensures fault { IfErr result (IfFault (TableFails section.now offset)) }
        // For callers that reason by steps.
        ensures exact { IfErr result (λ e. FailsOrMemory e (table_at section.now offset)) }
    {
        self.starts.enter_from(offset)?;
        let front = read_front(alloc, &self.starts, &mut self.lists, section, offset);
        let (decls, rest) = match front {
            Ok(front) => front,
            Err(Stop::Memory) => return Err(Stop::Memory),
            Err(Stop::Fault(_)) => return Err(fault_of_table(alloc, section, offset)),
        };
        match self.keep(section, offset, decls, rest)? {
            Some(table) => Ok(table),
            None => Err(fault_of_table(alloc, section, offset)),
        }
    }

    /// The declaration of a table that has this code, and its number.
    #[inline(always)]
    pub fn get(&self, table: u32, code: u64) -> Option<(u32, DeclAt<'_>)>
        requires searchable { AreSearchable self.now }
        requires table { table < length (tables_in self.now) }
        ensures decl { option_map (λ found. decl_view found.1) result ≡ find
            (λ d. d.code == code) (table_in (tables_in self.now) table) }
        ensures number { IfSome result (λ found. found.0 ≡ decl_number_in (chain_in (tables_in self.now) table) code) }
    {
        let label = self.labels.find(code);
        let number = self.codes.find(table, label);
        if number == 0 {
            return None;
        }
        let kept = &self.kept[(number - 1) as usize];
        Some((number, DeclAt::new(kept, &self.lists.lists, &self.places)))
    }

    /// The declarations of all tables.
    pub fn into_decls(self) -> Decls
        requires { AreSearchable self }
        ensures kept { result.kept.items ≡ self.kept.items }
        ensures nodes { result.lists.nodes.items ≡ self.lists.lists.nodes.items }
    {
        Decls {
            kept: self.kept,
            lists: self.lists.into_lists(),
            places: self.places,
        }
    }
}
