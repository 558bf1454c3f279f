// The columns that texts say.
ghost use Rattle.std.specs.Prelude.{◌≡◌, map, All, IfOk, IsTrue};
ghost use Rattle.tuple_schema.specs.Words.{HasScale};
ghost use Rattle.workflow_file.specs.Words.{KeepsRule, column_lack, is_kind, without_mark};
ghost use Rattle.flow_types.specs.Words.{word_in, kind_of, is_marked, stated_column};

use crate::typing::head_of;
use std::alloc::Global;
use tuple_schema::{Column, ColumnKind, Memory, Text, rest_of};

/// The column that each of the texts says.
pub fn stated_columns(alloc: Global, texts: &[Text]) -> Result<Vec<Column>, Memory>
    requires { All (KeepsRule column_lack) texts.now }
    ensures { IfOk result (λ v. v.items ≡ map stated_column texts.now) }
{
    let mut columns = Vec::new(alloc);
    for text in texts {
        columns.push(stated_column(alloc, text)?)?;
    }
    Ok(columns)
}

// The column that the text says.
fn stated_column(alloc: Global, text: &Text) -> Result<Column, Memory>
    requires { KeepsRule column_lack text.now }
    ensures { IfOk result (λ c. c ≡ stated_column text.now) }
{
    let name = head_of(alloc, text)?;
    let (word, nullable) = split_mark(word_in(text.as_str()).as_bytes());
    Ok(Column {
        name,
        kind: kind_of(word),
        nullable,
    })
}

// What stands behind the name.
fn word_in(text: &str) -> &str
    ensures { result.now ≡ word_in text.now }
{
    match rest_of(text) {
        None => "",
        Some(word) => word,
    }
}

// The word without the `?` at its end, and whether that stands there.
#[tactic(auto, unfolding(workflow_file::specs::Texts::without_mark))]
fn split_mark(word: &[u8]) -> (&[u8], bool)
    ensures word { result.0.now ≡ without_mark word.now }
    ensures marked { result.1 ≡ is_marked word.now }
{
    if word.is_empty() || word[word.len() - 1] != b'?' {
        return (word, false);
    }
    (&word[..word.len() - 1], true)
}

// The kind of this word.
#[tactic(auto, unfolding(workflow_file::specs::Texts::is_kind))]
fn kind_of(word: &[u8]) -> ColumnKind
    requires { IsTrue (is_kind word.now) }
    ensures { result ≡ kind_of word.now }
{
    if word == b"int".as_slice() {
        return ColumnKind::Int;
    }
    if word == b"text".as_slice() {
        return ColumnKind::Text;
    }
    ColumnKind::Dec(word[3] - b'0')
}
