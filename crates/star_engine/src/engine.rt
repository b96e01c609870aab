// The tables by name.
ghost use Rattle.std.specs.Prelude.{◌≡◌, ◌≢◌, ◌≤◌, ◌<◌, ℕ, [], None, Some, IsTrue, IfOk, OnErr, MatchResult, find, position, length, nat_le, slice_index_or as get_or};
ghost use Rattle.std.specs.List.{list_all};
ghost use Rattle.std.specs.Option.{option_copied, option_map};
ghost use Rattle.std.specs.Str.{bytes_eq};
ghost use Rattle.blink_base.specs.RowFits.{fits};
ghost use Rattle.cell_layout.specs.Valid.{is_valid};
ghost use Rattle.star_sql.specs.WellFormed.{is_well_formed};
ghost use Rattle.star_sql.specs.declared.ast.Statement.TheVariants as statement;
ghost use Rattle.star_engine.specs.Causes.{IsAnswer, IsCause};
ghost use Rattle.star_engine.specs.LoadedRows.{loaded, batch_in, IsGood};
ghost use Rattle.star_engine.specs.State.{Tables, find_table};
ghost use Rattle.star_engine.specs.Changes.{roomed, created, dropped, added, reorganized};
ghost use Rattle.star_engine.specs.EngineRepr.{table_of, image_named, IsEngineOf, HasTables, IsChange, IsAddition, IsKeyless};
ghost use Rattle.star_engine.specs.Soundness.{AreLimits};
ghost use Rattle.star_engine.specs.InsertedRows.{written};

use crate::batch::{Source, rows_from};
use crate::columns::{are_bad_columns, schema_of};
use crate::table::{Table, add_at, place_of, remove_at};
use crate::{EngineError, Growth};
use blink_base::{Limits, List, MOST_TABLES, Refusal, Row, Word};
use cell_layout::Image;
use star_sql::{ColumnDef, Literal};
use std::alloc::Global;
use word_pool::{Ledger, Steps};

/// The tables by name, in the order of their making, and how large they may grow. Source: ISO/IEC 9075 (tables); the limits
/// are this project's own.
#[derive(Drop)]
pub struct Engine<M: Ledger> {
    /// The tables.
    pub tables: List<Table<M>>,
    /// The most rows of a table, and the most blocks of all.
    pub limits: Limits,
}

// The refusal of a name without a table.
fn unknown(alloc: Global, name: &Word) -> EngineError
    ensures { result ≢ EngineError.Memory → result ≡ EngineError.Refused (Refusal.UnknownTable name.now) }
{
    match name.copy(alloc) {
        Ok(copy) => EngineError::Refused(Refusal::UnknownTable(copy)),
        Err(_) => EngineError::Memory,
    }
}

// The refusal of a name that has a table.
fn exists(alloc: Global, name: &Word) -> EngineError
    ensures { result ≢ EngineError.Memory → result ≡ EngineError.Refused (Refusal.TableExists name.now) }
{
    match name.copy(alloc) {
        Ok(copy) => EngineError::Refused(Refusal::TableExists(copy)),
        Err(_) => EngineError::Memory,
    }
}

// The rows of a source for the table at a place.
fn rows_at<M: Ledger>(
    alloc: Global,
    tables: &[Table<M>],
    at: usize,
    source: Source<'_>,
) -> Result<List<Row>, EngineError>
    requires within { at < length tables.now }
    requires valid { (d : Table M) → IsTrue (is_valid (get_or tables.now at d).image) }
    requires good { IsGood source }
    ensures rows { (d : Table M) → IsAnswer result (batch_in source.entry (get_or tables.now at d).image.schema) }
    ensures fit { IfOk result (λ rows. (d : Table M) → IsTrue (list_all (fits (get_or tables.now at d).image.schema) rows)) }
{
    let image = &tables[at].image;
    rows_from(alloc, &image.schema, source)
}

impl<M: Ledger> Engine<M> {
    /// An engine without tables. It takes no memory.
    ///
    /// The limits are at most 8,388,608 rows and 2,097,152 blocks. Source: this project's own.
    pub fn new(alloc: Global, limits: Limits) -> Engine<M>
        requires { AreLimits limits }
        ensures tables { IsEngineOf [] result }
        ensures limits { result.limits ≡ limits }
        ensures sound { HasTables result }
    {
        Engine {
            tables: List::new(alloc),
            limits,
        }
    }

    // The place of the first table of this name.
    fn place(&self, name: &Word) -> Option<usize>
        ensures { result ≡ position (λ table. bytes_eq name.now table.name) self.now.tables }
    {
        place_of(self.tables.as_slice(), name.as_str())
    }

    // Whether there are as many tables as there may be.
    fn is_full(&self) -> bool
        ensures { result ≡ nat_le MOST_TABLES (length self.now.tables) }
    {
        self.tables.len() >= MOST_TABLES
    }

    /// The first table of this name; None without one. It takes no memory. Source: this project's own.
    pub fn find(&self, name: &str) -> Option<&Table<M>>
        ensures first { option_copied result ≡ find (λ table. bytes_eq name.now table.name) self.now.tables }
        ensures accepted { (tables : Tables) → IsEngineOf tables self.now → option_copied result ≡ option_map table_of (find_table tables name.now) }
    {
        let at = place_of(self.tables.as_slice(), name)?;
        self.tables.get(at)
    }

    // The image of the first table of this name.
    pub(crate) fn image(&self, name: &str) -> Option<&Image<M>>
        ensures { option_copied result ≡ image_named self.now name.now }
    {
        match self.find(name) {
            Some(table) => Some(&table.image),
            None => None,
        }
    }

    /// Whether a table of this name may be made.
    ///
    /// It is refused with [`Refusal::TableExists`] exactly where there is a table of this name, and else with
    /// [`Refusal::TooManyTables`] exactly where there are 64. [`EngineError::Memory`] comes where there isn't enough memory.
    /// Source: ISO/IEC 9075 (table definitions); the number and the order of refusals are this project's own.
    pub fn room_for(&self, alloc: Global, name: &Word) -> Result<(), EngineError>
        ensures { (tables : Tables) → IsEngineOf tables self.now → MatchResult result (λ _. roomed tables name.now ≡ Ok tables) (λ why. IsCause why (roomed tables name.now)) }
    {
        let at = self.place(name);
        if at.is_some() {
            return Err(exists(alloc, name));
        }
        if self.is_full() {
            return Err(EngineError::Refused(Refusal::TooManyTables));
        }
        Ok(())
    }

    /// Makes a table of these columns, without rows, behind the others. CREATE TABLE.
    ///
    /// The name and the columns are those of a well formed statement. It is refused with [`Refusal::TableExists`] exactly
    /// where there is a table of this name, else with [`Refusal::BadColumns`] exactly where there are more than 32 columns, a
    /// name comes twice or PRIMARY KEY comes twice, and else with [`Refusal::TooManyTables`] exactly where there are 64
    /// tables. [`EngineError::Memory`] comes where there isn't enough memory. After any error all is as it was. Source:
    /// ISO/IEC 9075 (table definitions); the numbers and the order of refusals are this project's own.
    pub fn create(
        &mut self,
        alloc: Global,
        name: &Word,
        columns: &List<ColumnDef>,
    ) -> Result<(), EngineError>
        requires sound { HasTables self.old }
        requires formed { IsTrue (is_well_formed (statement.Create name.now columns.now)) }
        ensures step { (tables : Tables) → IsEngineOf tables self.old → IsChange result (created tables name.now columns.now) self.new }
        ensures sound { HasTables self.new }
        ensures limits { self.new.limits ≡ self.old.limits }
        ensures kept { OnErr result (self.new ≡ self.old) }
    {
        if self.place(name).is_some() {
            return Err(exists(alloc, name));
        }
        if are_bad_columns(columns.as_slice()) {
            return Err(EngineError::Refused(Refusal::BadColumns));
        }
        if self.is_full() {
            return Err(EngineError::Refused(Refusal::TooManyTables));
        }
        let schema = schema_of(alloc, columns.as_slice())?;
        let name = name.copy(alloc)?;
        let image = Image::empty(alloc, schema)?;
        self.tables.push(Table { name, image })?;
        Ok(())
    }

    /// Takes a table out, with its rows. DROP TABLE.
    ///
    /// It is refused with [`Refusal::UnknownTable`] exactly where there is no table of this name. [`EngineError::Memory`]
    /// comes where there isn't enough memory. After any error all is as it was. Source: ISO/IEC 9075 (DROP TABLE).
    pub fn drop_table(&mut self, alloc: Global, name: &Word) -> Result<(), EngineError>
        requires { HasTables self.old }
        ensures step { (tables : Tables) → IsEngineOf tables self.old → IsChange result (dropped tables name.now) self.new }
        ensures sound { HasTables self.new }
        ensures limits { self.new.limits ≡ self.old.limits }
        ensures kept { OnErr result (self.new ≡ self.old) }
    {
        match self.place(name) {
            Some(at) => {
                remove_at(alloc, &mut self.tables, at);
                Ok(())
            }
            None => Err(unknown(alloc, name)),
        }
    }

    // Adds the rows of a source to a table: all laid out anew, or the rows added to the standing layout.
    fn add(
        &mut self,
        alloc: Global,
        name: &Word,
        source: Source<'_>,
        growth: Growth,
        decodes: &mut Steps<M>,
    ) -> Result<u64, EngineError>
        requires sound { HasTables self.old }
        requires good { IsGood source }
        ensures step { (tables : Tables) → IsEngineOf tables self.old → IsAddition result (added self.old.limits growth tables name.now (batch_in source.entry)) self.new }
        ensures sound { HasTables self.new }
        ensures limits { self.new.limits ≡ self.old.limits }
        ensures kept { OnErr result (self.new ≡ self.old) }
        ensures decodes { growth ≡ Growth.Standing → IsKeyless self.old name.now → decodes.new ≡ decodes.old }
    {
        match self.place(name) {
            Some(at) => {
                let batch = rows_at(alloc, self.tables.as_slice(), at, source)?;
                let limit = self.limits.rows;
                add_at(alloc, &mut self.tables, at, growth, limit, &batch, decodes)?;
                Ok(batch.len() as u64)
            }
            None => Err(unknown(alloc, name)),
        }
    }

    /// Adds the rows of a CSV text to a table, behind those of its image, and lays all out anew. LOAD. It answers the number
    /// of rows that were added.
    ///
    /// It is refused with [`Refusal::UnknownTable`] exactly where there is no table of this name; else with
    /// [`Refusal::BadHeader`], [`Refusal::Arity`] or [`Refusal::BadValue`] exactly where `blink_loader::load` answers that
    /// fault; else with [`Refusal::TooManyRows`] exactly where the rows accepted and those of the text are more than the limit;
    /// and else with [`Refusal::DuplicateKey`] exactly where the key of a row stands before it in the table or the text, with
    /// the first such row. [`EngineError::Memory`] comes where there isn't enough memory. After any error all is as it was.
    /// Source: ISO/IEC 9075 (INSERT, primary keys) and RFC 4180; layouts, the limit and the order of refusals are this
    /// project's own.
    pub fn load(
        &mut self,
        alloc: Global,
        name: &Word,
        bytes: &[u8],
        decodes: &mut Steps<M>,
    ) -> Result<u64, EngineError>
        requires { HasTables self.old }
        ensures step { (tables : Tables) → IsEngineOf tables self.old → IsAddition result (added self.old.limits Growth.Anew tables name.now (loaded bytes.now)) self.new }
        ensures sound { HasTables self.new }
        ensures limits { self.new.limits ≡ self.old.limits }
        ensures kept { OnErr result (self.new ≡ self.old) }
    {
        self.add(alloc, name, Source::Text(bytes), Growth::Anew, decodes)
    }

    /// Adds the rows of a CSV text to the standing layout of a table. APPEND. It answers the number of rows that were added.
    ///
    /// It is refused where [`Engine::load`] is. On a table without a primary key the counter stays. After any error all is as
    /// it was. Source: ISO/IEC 9075 (INSERT, primary keys) and RFC 4180; layouts, the limit and the order of refusals are
    /// this project's own.
    pub fn append(
        &mut self,
        alloc: Global,
        name: &Word,
        bytes: &[u8],
        decodes: &mut Steps<M>,
    ) -> Result<u64, EngineError>
        requires { HasTables self.old }
        ensures step { (tables : Tables) → IsEngineOf tables self.old → IsAddition result (added self.old.limits Growth.Standing tables name.now (loaded bytes.now)) self.new }
        ensures sound { HasTables self.new }
        ensures limits { self.new.limits ≡ self.old.limits }
        ensures kept { OnErr result (self.new ≡ self.old) }
        ensures decodes { IsKeyless self.old name.now → decodes.new ≡ decodes.old }
    {
        self.add(alloc, name, Source::Text(bytes), Growth::Standing, decodes)
    }

    /// Adds the rows of a CSV text to a table, and gives the text up when its rows are read, so that it doesn't stand in memory
    /// beside their layout. With [`Growth::Anew`] it adds, refuses and answers as [`Engine::load`] does, and with
    /// [`Growth::Standing`] as [`Engine::append`] does. After any error all is as it was. Source: ISO/IEC 9075 (INSERT, primary
    /// keys) and RFC 4180; layouts, the limit and the order of refusals are this project's own.
    pub fn add_text(
        &mut self,
        alloc: Global,
        name: &Word,
        bytes: Vec<u8>,
        growth: Growth,
        decodes: &mut Steps<M>,
    ) -> Result<u64, EngineError>
        requires { HasTables self.old }
        ensures step { (tables : Tables) → IsEngineOf tables self.old → IsAddition result (added self.old.limits growth tables name.now (loaded bytes.items)) self.new }
        ensures sound { HasTables self.new }
        ensures limits { self.new.limits ≡ self.old.limits }
        ensures kept { OnErr result (self.new ≡ self.old) }
    {
        self.add(alloc, name, Source::Taken(bytes), growth, decodes)
    }

    /// Adds written rows to the standing layout of a table. INSERT. It answers the number of rows that were added.
    ///
    /// The name and the rows are those of a well formed statement. It is refused with [`Refusal::UnknownTable`] exactly where
    /// there is no table of this name. Else the first row at fault decides: [`Refusal::Arity`] where it has another number of
    /// literals than the table has columns, and else [`Refusal::BadValue`] at the first of them that is no value of its
    /// column's kind. Else it is refused with [`Refusal::TooManyRows`] and [`Refusal::DuplicateKey`] as [`Engine::load`] is.
    /// On a table without a primary key the counter stays. [`EngineError::Memory`] comes where there isn't enough memory.
    /// After any error all is as it was. Source: ISO/IEC 9075 (INSERT, primary keys); layouts, the limit and the order of
    /// refusals are this project's own.
    pub fn insert(
        &mut self,
        alloc: Global,
        name: &Word,
        rows: &List<List<Literal>>,
        decodes: &mut Steps<M>,
    ) -> Result<u64, EngineError>
        requires sound { HasTables self.old }
        requires formed { IsTrue (is_well_formed (statement.Insert name.now rows.now)) }
        ensures step { (tables : Tables) → IsEngineOf tables self.old → IsAddition result (added self.old.limits Growth.Standing tables name.now (λ schema. written schema rows.now)) self.new }
        ensures sound { HasTables self.new }
        ensures limits { self.new.limits ≡ self.old.limits }
        ensures kept { OnErr result (self.new ≡ self.old) }
        ensures decodes { IsKeyless self.old name.now → decodes.new ≡ decodes.old }
    {
        self.add(
            alloc,
            name,
            Source::Written(rows),
            Growth::Standing,
            decodes,
        )
    }

    /// Lays the rows of a table's image out anew. REORGANIZE TABLE.
    ///
    /// It is refused with [`Refusal::UnknownTable`] exactly where there is no table of this name. [`EngineError::Memory`]
    /// comes where there isn't enough memory. After any error all is as it was. Source: this project's own.
    pub fn reorganize(
        &mut self,
        alloc: Global,
        name: &Word,
        decodes: &mut Steps<M>,
    ) -> Result<(), EngineError>
        requires { HasTables self.old }
        ensures step { (tables : Tables) → IsEngineOf tables self.old → IsChange result (reorganized tables name.now) self.new }
        ensures sound { HasTables self.new }
        ensures limits { self.new.limits ≡ self.old.limits }
        ensures kept { OnErr result (self.new ≡ self.old) }
    {
        match self.place(name) {
            Some(at) => {
                let limit = self.limits.rows;
                let batch = List::new(alloc);
                add_at(
                    alloc,
                    &mut self.tables,
                    at,
                    Growth::Anew,
                    limit,
                    &batch,
                    decodes,
                )?;
                Ok(())
            }
            None => Err(unknown(alloc, name)),
        }
    }
}
