//! The tables and digest texts that lines bring in, in the order of their first appearance.

ghost use Rattle.std.specs.Prelude.{◌≡◌, [], false, nat_lt, length, position, OnOk, IfOk, Ok, Some, Result, List, ℕ};
ghost use Rattle.std.specs.Result.{result_ok};
ghost use Rattle.pfs_lexer.specs.declared.tokens.LexFault.{LexFault};
ghost use Rattle.pfs_script.specs.Finds.{shown_of, is_table, table_number, with_table, has_text, place_of, add_digest, with_digest};
ghost use Rattle.pfs_script.specs.Reasons.{is_bad_statement};
ghost use Rattle.pfs_script.specs.Senses.{number_in, IsFound};
ghost use Rattle.pfs_script.specs.declared.forms.Form.TheVariants as form;

use crate::forms::Form;
use pfs_classes::{DigestList, DigestText, NoMemory, TableList, TableName};
use pfs_digest::{DigestFault, digest_text};
use pfs_text::Text;
use std::alloc::{AllocError, Global};

/// The most tables of a script.
const MOST_TABLES: usize = 64;

/// The tables and digest texts of the lines so far.
#[derive(Drop)]
pub struct Finds {
    pub tables: TableList,
    pub digests: DigestList,
}

/// What is known of a line's table or digest text before the line is taken.
#[derive(Drop)]
pub enum Found {
    /// The same line was taken before, and this is the number of its table or the place of its digest text;
    /// None where it has neither.
    Before(Option<usize>),
    /// The line is new, and this is the digest text of its statement; None where the lexer refuses the text,
    /// and for any other line.
    Now(Option<Text>),
}

/// The digest text of a line's statement: None where the lexer refuses its text, and for any other line.
pub fn shown_of(alloc: Global, line: &Form) -> Result<Option<Text>, NoMemory>
    ensures { IfOk result (λ shown. shown ≡ shown_of line.now) }
{
    match line {
        Form::Statement { text, .. } => match digest_text(alloc, text.as_str()) {
            Ok(shown) => Ok(Some(shown)),
            Err(DigestFault::Lex(_)) => Ok(None),
            Err(DigestFault::NoMemory) => Err(AllocError),
        },
        _ => Ok(None),
    }
}

/// Whether the lexer refuses the text of a line's statement, so that this, which is its digest text, is none.
pub fn is_refused(line: &Form, shown: &Option<Text>) -> bool
    requires { shown.now ≡ shown_of line.now }
    ensures { result ≡ is_bad_statement line.now }
{
    match line {
        Form::Statement { .. } => shown.is_none(),
        _ => false,
    }
}

fn is_table(schema: &[u8], name: &[u8], table: &TableName) -> bool
    ensures { result ≡ is_table schema.now name.now table.now }
{
    table.schema.as_bytes() == schema && table.name.as_bytes() == name
}

/// The number of a table among these.
pub fn table_number(tables: &[TableName], schema: &[u8], name: &[u8]) -> Option<usize>
    ensures { result ≡ table_number tables.now schema.now name.now }
{
    tables
        .iter()
        .position(|table| is_table(schema, name, table))
}

fn has_text(shown: &[u8], digest: &DigestText) -> bool
    ensures { result ≡ has_text shown.now digest.now }
{
    digest.text.as_bytes() == shown
}

fn text_place(digests: &[DigestText], shown: &[u8]) -> Option<usize>
    ensures { result ≡ position (has_text shown.now) digests.now }
{
    digests.iter().position(|digest| has_text(shown, digest))
}

impl Finds {
    /// No tables and no digest texts. It takes no memory.
    pub fn none(alloc: Global) -> Finds
        ensures tables { result.tables ≡ [] }
        ensures digests { result.digests ≡ [] }
    {
        Finds {
            tables: TableList::new(Vec::new(alloc)),
            digests: DigestList::new(Vec::new(alloc)),
        }
    }

    /// Whether the line names one table too many.
    pub fn is_table_too_many(&self, line: &Form) -> bool
        ensures { nat_lt 64 (length self.now.tables) ≡ false
            → result ≡ nat_lt 64 (length (with_table self.now.tables line.now)) }
    {
        match line {
            Form::TableWait { schema, name, .. } => {
                let tables = self.tables.as_slice();
                tables.len() >= MOST_TABLES
                    && table_number(tables, schema.bytes(), name.bytes()).is_none()
            }
            _ => false,
        }
    }

    /// Takes one more line, of which this is known, where so many digest texts are kept at most. It gives the
    /// number of a wait's table and the place of a statement's digest text; None where that has no place, and
    /// for any other line.
    pub fn note(
        &mut self,
        alloc: Global,
        most: u64,
        line: &Form,
        found: Found,
    ) -> Result<Option<usize>, NoMemory>
        requires { IsFound most self.old line.now found }
        ensures tables { OnOk result (self.new.tables ≡ with_table self.old.tables line.now) }
        ensures digests { OnOk result (self.new.digests ≡ with_digest most self.old.digests line.now) }
        ensures number { IfOk result (λ number. number ≡ number_in self.new.tables self.new.digests line.now) }
    {
        match found {
            Found::Before(number) => Ok(number),
            Found::Now(shown) => self.add(alloc, most, line, shown),
        }
    }

    // The same for a line that is new, whose statement has this digest text.
    fn add(
        &mut self,
        alloc: Global,
        most: u64,
        line: &Form,
        shown: Option<Text>,
    ) -> Result<Option<usize>, NoMemory>
        requires { shown ≡ shown_of line.now }
        ensures tables { OnOk result (self.new.tables ≡ with_table self.old.tables line.now) }
        ensures digests { OnOk result (self.new.digests ≡ with_digest most self.old.digests line.now) }
        ensures number { IfOk result (λ number. number ≡ number_in self.new.tables self.new.digests line.now) }
    {
        match line {
            Form::TableWait { schema, name, .. } => {
                let number = self.add_table(alloc, schema.bytes(), name.bytes())?;
                Ok(Some(number))
            }
            Form::Statement { .. } => self.add_statement(most, shown),
            _ => Ok(None),
        }
    }

    // The number of a table, which may be new.
    fn add_table(&mut self, alloc: Global, schema: &[u8], name: &[u8]) -> Result<usize, NoMemory>
        ensures tables { OnOk result (self.new.tables
            ≡ with_table self.old.tables (form.TableWait [] schema.now name.now)) }
        ensures digests { self.new.digests ≡ self.old.digests }
        ensures number { IfOk result (λ number. table_number self.new.tables schema.now name.now ≡ Some number) }
    {
        let tables = self.tables.as_slice();
        let next = tables.len();
        if let Some(number) = table_number(tables, schema, name) {
            return Ok(number);
        }
        let schema = Text::from_slice(alloc, schema)?;
        let name = Text::from_slice(alloc, name)?;
        self.tables.push(TableName { schema, name })?;
        Ok(next)
    }

    // The place of the digest text of a statement, which has none where the lexer refuses it.
    fn add_statement(&mut self, most: u64, shown: Option<Text>) -> Result<Option<usize>, NoMemory>
        ensures tables { self.new.tables ≡ self.old.tables }
        ensures digests { OnOk result ((due : Result (List ℕ) LexFault) → shown ≡ result_ok due
            → self.new.digests ≡ add_digest most self.old.digests due) }
        ensures place { IfOk result (λ place. (due : Result (List ℕ) LexFault) → shown ≡ result_ok due
            → place ≡ place_of self.new.digests due) }
    {
        match shown {
            Some(shown) => self.add_digest(most, shown),
            None => Ok(None),
        }
    }

    fn add_digest(&mut self, most: u64, shown: Text) -> Result<Option<usize>, NoMemory>
        ensures tables { self.new.tables ≡ self.old.tables }
        ensures digests { OnOk result (self.new.digests ≡ add_digest most self.old.digests (Ok shown)) }
        ensures place { IfOk result (λ place. place ≡ position (has_text shown) self.new.digests) }
    {
        let digests = self.digests.as_slice();
        let next = digests.len();
        if let Some(place) = text_place(digests, shown.as_bytes()) {
            return Ok(Some(place));
        }
        if next as u64 >= most {
            return Ok(None);
        }
        self.digests.push(DigestText { text: shown })?;
        Ok(Some(next))
    }
}
