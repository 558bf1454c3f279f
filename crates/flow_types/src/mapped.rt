// Maps: what their texts set, and the columns that come of it.
ghost use Rattle.std.specs.Prelude.{◌≡◌, ◌≤◌, [], ◌∷◌, ◌++◌, length, map, filter_map, option_map, option_copied, option_to_list, Ok, IfOk, OnOk, All};
ghost use Rattle.std.specs.List.{filter};
ghost use Rattle.tuple_schema.specs.Words.{Gives, GivesView, head_of};
ghost use Rattle.expr_lang.specs.Words.{tree_of, typing, LeavesFit};
ghost use Rattle.flow_types.specs.Words.{HoldsValue, IsOver, assign_in, columns_set, each_made, is_new, names_in};
ghost use Rattle.flow_types.specs.Words.{no_double, only_few, only_value, replaced, set_columns, set_named};
ghost use Rattle.flow_types.specs.Words.{setting_of, typed_map, value_text};

use crate::expressions::{expression_of, kind_over};
use crate::fault::SchemaCause;
use crate::names::{is_among, names_in, no_double, place_of};
use crate::node::{Assign, Assigns, Kind};
use crate::typed::Typed;
use crate::typing::head_of;
use expr_grammar::Expr;
use expr_lang::{ExprKind, value_laws};
use std::alloc::Global;
use tuple_schema::{Column, Memory, Schema, Stop, Text, rest_of};

/// A column that is set, and its value.
#[derive(Drop)]
pub struct Setting {
    pub column: Column,
    pub value: Expr,
}

/// What a map is that sets these texts, over an input.
pub fn type_map(alloc: Global, texts: &[Text], input: &Schema) -> Result<Typed, Stop<SchemaCause>>
    ensures typed { GivesView (λ t. (t.kind, t.schema)) result (typed_map texts.now input.now) }
    ensures over { IfOk result (λ t. IsOver t.kind (input.now ∷ []) t.schema) }
{
    value_laws();
    let settings = settings_of(alloc, input, texts)?;
    differ(alloc, &settings)?;
    let columns = set_columns(alloc, input.columns(), &settings)?;
    let columns = only_few(columns)?;
    let sets = assigns_in(alloc, &columns, settings)?;
    Ok(Typed {
        kind: Kind::Map { sets },
        schema: Schema::of(columns),
    })
}

// What the texts set, or what is wrong with the first that sets nothing.
fn settings_of(
    alloc: Global,
    input: &Schema,
    texts: &[Text],
) -> Result<Vec<Setting>, Stop<SchemaCause>>
    ensures made { GivesView (λ v. v.items) result (each_made (setting_of input.now) texts.now) }
    ensures hold { IfOk result (λ v. All (λ s. HoldsValue input.now s.value s.column) v.items) }
{
    let mut settings = Vec::new(alloc);
    for text in texts {
        let setting = setting_of(alloc, input, text)?;
        settings.push(setting)?;
    }
    Ok(settings)
}

// What a text sets.
fn setting_of(alloc: Global, input: &Schema, text: &Text) -> Result<Setting, Stop<SchemaCause>>
    ensures made { Gives result (setting_of input.now text.now) }
    ensures holds { IfOk result (λ s. HoldsValue input.now s.value s.column) }
{
    let value = expression_of(alloc, value_text(text.as_str()))?;
    let kind = kind_over(&value, input)?;
    let column = only_value(alloc, text, kind)?;
    Ok(Setting { column, value })
}

/// What stands behind the second space.
pub fn value_text(text: &str) -> &str
    ensures value { result.now ≡ value_text text.now }
    ensures shorter { length result.now ≤ length text.now }
{
    let Some(rest) = rest_of(text) else {
        return "";
    };
    match rest_of(rest) {
        None => "",
        Some(value) => value,
    }
}

// The column that the text names, for a value of this kind.
fn only_value(alloc: Global, text: &Text, kind: ExprKind) -> Result<Column, Stop<SchemaCause>>
    ensures value { Gives result (only_value (head_of text.now) kind) }
    ensures is { IfOk result (λ c. kind ≡ ExprKind.Value c.kind c.nullable) }
{
    match kind {
        ExprKind::Truth => Err(Stop::Fault(SchemaCause::BadType)),
        ExprKind::Value { kind, nullable } => {
            let name = head_of(alloc, text)?;
            Ok(Column {
                name,
                kind,
                nullable,
            })
        }
    }
}

// Refuses a name that is set twice.
fn differ(alloc: Global, settings: &[Setting]) -> Result<(), Stop<SchemaCause>>
    ensures { Gives result (no_double (names_in (columns_set settings.now))) }
{
    let names = names_set(alloc, settings)?;
    no_double(&names)
}

// The names that are set.
fn names_set(alloc: Global, settings: &[Setting]) -> Result<Vec<&Text>, Memory>
    ensures { IfOk result (λ v. map (λ t. t.now) v.items ≡ names_in (columns_set settings.now)) }
{
    let mut names = Vec::new(alloc);
    for setting in settings {
        names.push(&setting.column.name)?;
    }
    Ok(names)
}

// The columns of the output: the input's, as they are set where they are, and the new ones.
fn set_columns(alloc: Global, input: &[Column], settings: &[Setting]) -> Result<Vec<Column>, Memory>
    ensures { IfOk result (λ v. v.items ≡ set_columns input.now settings.now) }
{
    let names = names_in(alloc, input)?;
    let mut columns = replaced_columns(alloc, input, settings)?;
    for setting in settings {
        push_new(&names, setting, &mut columns)?;
    }
    Ok(columns)
}

// Adds the column that is set, where its name is none of these.
fn push_new(names: &[&Text], setting: &Setting, columns: &mut Vec<Column>) -> Result<(), Memory>
    ensures { OnOk result (columns.new.items ≡ columns.old.items
        ++ columns_set (filter (is_new (map (λ n. n.now) names.now)) (setting.now ∷ []))) }
{
    if !is_among(names, &setting.column.name) {
        columns.push(setting.column.copy()?)?;
    }
    Ok(())
}

// The input's columns, each as it is set where it is.
fn replaced_columns(
    alloc: Global,
    input: &[Column],
    settings: &[Setting],
) -> Result<Vec<Column>, Memory>
    ensures { IfOk result (λ v. v.items ≡ map (replaced settings.now) input.now) }
{
    let mut columns = Vec::new(alloc);
    for column in input {
        columns.push(replaced(settings, column)?)?;
    }
    Ok(columns)
}

// The column as it is set, or as it is.
fn replaced(settings: &[Setting], column: &Column) -> Result<Column, Memory>
    ensures { IfOk result (λ c. c ≡ replaced settings.now column.now) }
{
    match set_named(settings, &column.name) {
        None => column.copy(),
        Some(setting) => setting.column.copy(),
    }
}

fn set_named<'s>(settings: &'s [Setting], name: &Text) -> Option<&'s Setting>
    ensures { option_copied result ≡ set_named name.now settings.now }
{
    settings.iter().find(|s| s.column.name == *name)
}

/// Refuses more columns than a schema may have.
pub fn only_few(columns: Vec<Column>) -> Result<Vec<Column>, Stop<SchemaCause>>
    ensures only { GivesView (λ v. v.items) result (only_few columns.items) }
    ensures same { IfOk result (λ v. v.items ≡ columns.items) }
    ensures few { IfOk result (λ v. length v.items ≤ 64) }
{
    if columns.len() > 64 {
        return Err(Stop::Fault(SchemaCause::TooManyColumns));
    }
    Ok(columns)
}

// The values, each at the place of its column, which is there.
fn assigns_in(alloc: Global, columns: &[Column], settings: Vec<Setting>) -> Result<Assigns, Memory>
    ensures { IfOk result (λ sets. sets ≡ filter_map (assign_in (names_in columns.now)) settings.items) }
{
    let names = names_in(alloc, columns)?;
    let mut sets = Assigns::new(alloc);
    for setting in settings {
        push_assign(&names, setting, &mut sets)?;
    }
    Ok(sets)
}

// Adds the value, at the place of its column's name.
fn push_assign(names: &[&Text], setting: Setting, sets: &mut Assigns) -> Result<(), Memory>
    ensures { OnOk result (sets.new ≡ sets.old
        ++ option_to_list (assign_in (map (λ n. n.now) names.now) setting)) }
{
    let Setting { column, value } = setting;
    if let Some(place) = place_of(names, &column.name) {
        sets.push(Assign { place, value })?;
    }
    Ok(())
}
