//! The schema of a store: the texts that make its two tables, and the columns that they have to
//! have.

ghost use Rattle.std.specs.Prelude.{◌≡◌, ◌↔◌, [], ◌∷◌, take, drop, true, false, IsTrue, OnOk};
ghost use Rattle.sqlite.specs.{State.HasCleanDisk, Held.state};
ghost use Rattle.acceptor.specs.Storing.{first_stored};
ghost use Rattle.store.specs.Layout.{strict_column, keyed_table, desk_table, entries_table, IsOurs};
ghost use Rattle.store.specs.Layout.{HasNoKey, HasNoRule, IsKeyed, no_schema};
ghost use Rattle.store.specs.{Kept.Keeps, Kept.IsBare, Opening.MakesBoth};

use crate::home::Home;
use crate::statements::{number, small};
use sqlite::{Alter, Connection, Error};
use sqlite_schema::code::Terms;
use sqlite_schema::schema::{Column, Kind, Schema, Stamps, Table};
use sqlite_value::keys::Collation;
use sqlite_value::value::Value;

/// Makes both tables and the first row. A stop inside leaves both or none.
pub fn make_tables<S: Alter>(conn: &mut Connection<S>, home: Home) -> Result<(), Error>
    requires { conn.old.in_transaction ≡ false }
    ensures clean { HasCleanDisk (state S.Store conn.new) → HasCleanDisk (state S.Store conn.old) }
    ensures made { HasCleanDisk (state S.Store conn.new) → IsBare (state S.Store conn.old)
        → OnOk result (Keeps home first_stored [] (state S.Store conn.new)) }
    ensures crash { MakesBoth home (state S.Store conn.old) (state S.Store conn.new) }
{
    let mut tx = conn.transaction();
    tx.execute(
        "CREATE TABLE desk (k INTEGER PRIMARY KEY, hall INTEGER NOT NULL, number INTEGER NOT NULL, \
         desks INTEGER NOT NULL, promised_round INTEGER NOT NULL, promised_desk INTEGER NOT NULL, \
         tried INTEGER NOT NULL, vote_pos INTEGER, vote_round INTEGER, vote_desk INTEGER, \
         vote_id INTEGER, vote_body BLOB) STRICT",
        &[],
    )?;
    tx.execute(
        "CREATE TABLE entries (pos INTEGER PRIMARY KEY, id INTEGER NOT NULL, body BLOB NOT NULL) \
         STRICT",
        &[],
    )?;
    tx.execute(
        "INSERT INTO desk (k, hall, number, desks, promised_round, promised_desk, tried) \
         VALUES (1, ?1, ?2, ?3, 0, 0, 0)",
        &[number(home.hall), small(home.desk), small(home.desks)],
    )?;
    tx.commit()
}

fn is_column(column: &Column, name: &[u8], kind: Kind, not_null: bool) -> bool
    ensures is { result ≡ true → column.now ≡ strict_column name.now kind not_null }
    ensures only { column.now ≡ strict_column name.now kind not_null → result ≡ true }
{
    column.name.as_slice() == name
        && column.kind == kind
        && column.is_strict
        && column.not_null == not_null
        && matches!(&column.default, Value::Null)
        && column.collation == Collation::Binary
}

fn is_empty_terms(terms: &Terms) -> bool
    ensures is { result ≡ true → terms.now ≡ [] }
    ensures only { terms.now ≡ [] → result ≡ true }
{
    terms.roots.is_empty()
}

fn are_none(stamps: &Stamps) -> bool
    ensures is { result ≡ true → stamps.now ≡ record { places = []; terms = []; formats = [] } }
    ensures only { stamps.now ≡ record { places = []; terms = []; formats = [] } → result ≡ true }
{
    stamps.places.is_empty() && is_empty_terms(&stamps.terms) && stamps.formats.is_empty()
}

fn is_first(places: &[usize]) -> bool
    ensures is { result ≡ true → places.now ≡ 0 ∷ [] }
    ensures only { places.now ≡ 0 ∷ [] → result ≡ true }
{
    match places {
        [place] => *place == 0,
        _ => false,
    }
}

fn has_no_rule(table: &Table) -> bool
    ensures is { result ≡ true → HasNoRule table.now }
    ensures only { HasNoRule table.now → result ≡ true }
{
    table.uniques.is_empty()
        && table.orders.is_empty()
        && is_empty_terms(&table.checks)
        && table.references.is_empty()
        && table.computed.is_empty()
}

fn is_keyed(table: &Table) -> bool
    ensures is { result ≡ true → IsKeyed table.now }
    ensures only { IsKeyed table.now → result ≡ true }
{
    table.key == Some(0)
        && is_first(table.primary.as_slice())
        && are_none(&table.stamps)
        && !table.is_counted
}

fn is_bare(table: &Table, name: &[u8], tree: u32) -> bool
    ensures is { result ≡ true → table.now ≡ keyed_table name.now tree table.now.columns }
    ensures only { table.now ≡ keyed_table name.now tree table.now.columns → result ≡ true }
{
    table.name.as_slice() == name && table.tree == tree && is_keyed(table) && has_no_rule(table)
}

fn are_home_columns(columns: &[Column]) -> bool
    ensures is { result ≡ true → columns.now ≡ take 4 (desk_table 0).columns }
    ensures only { columns.now ≡ take 4 (desk_table 0).columns → result ≡ true }
{
    match columns {
        [k, hall, number, desks] => is_column(k, b"k", Kind::Integer, false)
            && is_column(hall, b"hall", Kind::Integer, true)
            && is_column(number, b"number", Kind::Integer, true)
            && is_column(desks, b"desks", Kind::Integer, true),
        _ => false,
    }
}

fn are_promise_columns(columns: &[Column]) -> bool
    ensures is { result ≡ true → columns.now ≡ take 3 (drop 4 (desk_table 0).columns) }
    ensures only { columns.now ≡ take 3 (drop 4 (desk_table 0).columns) → result ≡ true }
{
    match columns {
        [number, desk, tried] => is_column(number, b"promised_round", Kind::Integer, true)
            && is_column(desk, b"promised_desk", Kind::Integer, true)
            && is_column(tried, b"tried", Kind::Integer, true),
        _ => false,
    }
}

fn are_ballot_columns(columns: &[Column]) -> bool
    ensures is { result ≡ true → columns.now ≡ take 3 (drop 7 (desk_table 0).columns) }
    ensures only { columns.now ≡ take 3 (drop 7 (desk_table 0).columns) → result ≡ true }
{
    match columns {
        [pos, number, desk] => {
            let has_pos = is_column(pos, b"vote_pos", Kind::Integer, false);
            let has_number = is_column(number, b"vote_round", Kind::Integer, false);
            let has_desk = is_column(desk, b"vote_desk", Kind::Integer, false);
            has_pos && has_number && has_desk
        }
        _ => false,
    }
}

fn are_body_columns(columns: &[Column]) -> bool
    ensures is { result ≡ true → columns.now ≡ drop 10 (desk_table 0).columns }
    ensures only { columns.now ≡ drop 10 (desk_table 0).columns → result ≡ true }
{
    match columns {
        [id, body] => is_column(id, b"vote_id", Kind::Integer, false)
            && is_column(body, b"vote_body", Kind::Blob, false),
        _ => false,
    }
}

fn are_vote_columns(columns: &[Column]) -> bool
    ensures is { result ≡ true → columns.now ≡ drop 7 (desk_table 0).columns }
    ensures only { columns.now ≡ drop 7 (desk_table 0).columns → result ≡ true }
{
    if columns.len() < 3 {
        return false;
    }
    let (ballot, body) = columns.split_at(3);
    are_ballot_columns(ballot) && are_body_columns(body)
}

fn are_desk_columns(columns: &[Column]) -> bool
    ensures is { result ≡ true → columns.now ≡ (desk_table 0).columns }
    ensures only { columns.now ≡ (desk_table 0).columns → result ≡ true }
{
    if columns.len() < 7 {
        return false;
    }
    let (front, vote) = columns.split_at(7);
    let (home, promise) = front.split_at(4);
    are_home_columns(home) && are_promise_columns(promise) && are_vote_columns(vote)
}

fn are_entries_columns(columns: &[Column]) -> bool
    ensures is { result ≡ true → columns.now ≡ (entries_table 1).columns }
    ensures only { columns.now ≡ (entries_table 1).columns → result ≡ true }
{
    match columns {
        [pos, id, body] => is_column(pos, b"pos", Kind::Integer, false)
            && is_column(id, b"id", Kind::Integer, true)
            && is_column(body, b"body", Kind::Blob, true),
        _ => false,
    }
}

fn is_desk_table(table: &Table) -> bool
    ensures is { result ≡ true → table.now ≡ desk_table 0 }
    ensures only { table.now ≡ desk_table 0 → result ≡ true }
{
    is_bare(table, b"desk", 0) && are_desk_columns(table.columns.as_slice())
}

fn is_entries_table(table: &Table) -> bool
    ensures is { result ≡ true → table.now ≡ entries_table 1 }
    ensures only { table.now ≡ entries_table 1 → result ≡ true }
{
    is_bare(table, b"entries", 1) && are_entries_columns(table.columns.as_slice())
}

fn have_no_key(tables: &[Table]) -> bool
    ensures is { result ≡ true → HasNoKey tables.now }
    ensures only { HasNoKey tables.now → result ≡ true }
{
    match tables {
        [] => true,
        [first, more @ ..] => first.references.is_empty() && have_no_key(more),
    }
}

/// Whether the first two tables are the store's, and no table of the file has a foreign key.
pub fn is_ours(schema: &Schema) -> bool
    ensures is { result ≡ true → IsOurs schema.now }
    ensures only { IsOurs schema.now → result ≡ true }
{
    match schema.tables.as_slice() {
        [desk, entries, others @ ..] => {
            let has_desk = is_desk_table(desk);
            let has_entries = is_entries_table(entries);
            let is_alone = have_no_key(others);
            has_desk && has_entries && is_alone
        }
        _ => false,
    }
}

/// Whether there is no table, index or view at all.
pub fn is_bare_schema(schema: &Schema) -> bool
    ensures { IsTrue result ↔ (schema.now ≡ no_schema) }
{
    schema.tables.is_empty() && schema.indexes.is_empty() && schema.views.is_empty()
}
