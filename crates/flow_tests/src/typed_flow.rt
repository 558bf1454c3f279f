// A typed flow: its nodes from the source on, their numbers and all that they hold.
use flow_types::{
    Agg, Assigns, Cols, Flow, GroupOrder, Kind, Makes, Node, Source, is_built, type_flow,
};
use std::alloc::Global;
use std::test::Fail;
use tuple_schema::{Column, ColumnKind, Stop};
use workflow_file::read_flow;

const FLOW: &[u8] = b"\
table={input='q'}
source=[{name='a',file='a.csv',promise='seq',columns=['n int','m int','k int'],key=['m','n'],grouped=['m']}]
node=[{name='s',kind='select',input='p',where='k > 1'},
{name='p',kind='project',input='a',columns=['m as k','n']},
{name='q',kind='project',input='s',columns=['n','k']}]
";

// A node: its number, its name, its kind, the numbers of its inputs, and its columns.
const NODES: [&str; 4] = [
    "0 a a.csv csv seq key 1 0 grouped 1: n m k",
    "2 p project 1 0 over 0: k n",
    "1 s select Infix(Greater, Boxed { inner: Column(k) }, Boxed { inner: Number { units: 1, places: 0 } }) over 2: k n",
    "3 q project 1 0 over 1: n k",
];

// The same of columns of every kind, under any header.
const KINDS: &[u8] = b"\
table={input='m'}
source=[{name='a',file='a.csv',header='any',format='csv',promise='seq',
columns=['n int?','d dec1','e dec6?','s text','t text?']}]
node=[{name='p',kind='project',input='a',columns=['t as u','d']},
{name='m',kind='map',input='p',set=['z = length(u)','d = 1.50']}]
";

const KINDS_NODES: [&str; 3] = [
    "0 a a.csv csv any seq key none grouped none: n? d.1 e.6? s' t'?",
    "1 p project 4 1 over 0: u'? d.1",
    "2 m map 2 = Length(Boxed { inner: Column(u) }), 1 = Number { units: 150, places: 2 } over 1: u'? d.2 z?",
];

// The same of a join and a lookup.
const JOINED: &[u8] = b"\
table={input='l'}
source=[{name='a',file='a.csv',promise='seq',columns=['n int','t text']},
{name='b',file='b.csv',promise='seq',columns=['x text','n int?','m dec1']},
{name='c',file='c.csv',promise='seq',columns=['y dec1','z int']}]
node=[{name='l',kind='lookup',left='j',right='c',on=['m = y']},
{name='j',kind='join',left='a',right='b',on=['t = x','n']}]
";

const JOINED_NODES: [&str; 5] = [
    "0 a a.csv csv seq key none grouped none: n t'",
    "1 b b.csv csv seq key none grouped none: x' n? m.1",
    "4 j join 1 0 with 0 1 over 0 over 1: n t' m.1",
    "2 c c.csv csv seq key none grouped none: y.1 z",
    "3 l lookup 2 with 0 over 4 over 2: n t' m.1 z?",
];

// The same of an aggregate.
const GROUPED: &[u8] = b"\
table={input='g'}
source=[{name='a',file='a.csv',promise='seq',columns=['n int?','d dec1','t text?']}]
node=[{name='g',kind='aggregate',input='h',by=['u','t'],make=['k = count'],order='key'},
{name='h',kind='aggregate',input='a',by=['t'],order='first',
make=['c = count','e = count n','s = sum d','u = min n','v = max d']}]
";

const GROUPED_NODES: [&str; 3] = [
    "0 a a.csv csv seq key none grouped none: n? d.1 t'?",
    "2 h groups 2 make count 0, count of 0, sum 1, min 0, max 1 over 0: t'? c e s.1? u? v.1",
    "1 g groups 4 0 by key make count 0 over 2: u? t'? k",
];

fn typed(alloc: Global, text: &[u8]) -> Result<Flow, Fail> {
    if text.len() > 65536 {
        return Err(Fail::new("longer than a flow file"));
    }
    let raw = read_flow(alloc, text)?;
    if !is_built(&raw) {
        return Err(Fail::new("not built"));
    }
    match type_flow(alloc, &raw) {
        Ok(flow) => Ok(flow),
        Err(_) => Err(Fail::new("no flow")),
    }
}

fn places(alloc: Global, cols: &Cols) -> Result<String, Fail> {
    let mut line = String::new(alloc);
    for place in cols.places() {
        line.push_str(format!(in alloc; " {}", *place)?.as_str())?;
    }
    Ok(line)
}

fn places_or_none(alloc: Global, cols: &Option<Cols>) -> Result<String, Fail> {
    match cols {
        None => Ok(String::from_str(alloc, " none")?),
        Some(cols) => places(alloc, cols),
    }
}

fn source_line(alloc: Global, source: &Source) -> Result<String, Fail> {
    Ok(format!(in alloc;
        "{} {}{}{} key{} grouped{}",
        source.file.as_str(),
        if source.packed { "packed" } else { "csv" },
        if source.any_header { " any" } else { "" },
        if source.seq { " seq" } else { " set" },
        places_or_none(alloc, &source.key)?,
        places_or_none(alloc, &source.grouped)?
    )?)
}

fn sets_line(alloc: Global, sets: &Assigns) -> Result<String, Fail> {
    let mut line = String::from_str(alloc, "map")?;
    for set in sets.items() {
        if line.len() > 3 {
            line.push_str(",")?;
        }
        line.push_str(format!(in alloc; " {} = {:?}", set.place, set.value)?.as_str())?;
    }
    Ok(line)
}

fn pairs_line(alloc: Global, kind: &str, left: &Cols, right: &Cols) -> Result<String, Fail> {
    let (left, right) = (places(alloc, left)?, places(alloc, right)?);
    Ok(format!(in alloc; "{kind}{left} with{right}")?)
}

fn makes_line(alloc: Global, makes: &Makes) -> Result<String, Fail> {
    let mut line = String::from_str(alloc, " make")?;
    for make in makes.items() {
        if line.len() > 5 {
            line.push_str(",")?;
        }
        let what = match make.what {
            Agg::Count => "count",
            Agg::CountOf => "count of",
            Agg::Sum => "sum",
            Agg::Min => "min",
            Agg::Max => "max",
        };
        line.push_str(format!(in alloc; " {what} {}", make.column)?.as_str())?;
    }
    Ok(line)
}

fn groups_line(alloc: Global, by: &Cols, makes: &Makes, order: GroupOrder) -> Result<String, Fail> {
    let word = match order {
        GroupOrder::First => "",
        GroupOrder::Key => " by key",
    };
    let (by, makes) = (places(alloc, by)?, makes_line(alloc, makes)?);
    Ok(format!(in alloc; "groups{by}{word}{makes}")?)
}

fn kind_line(alloc: Global, kind: &Kind) -> Result<String, Fail> {
    match kind {
        Kind::Source(source) => source_line(alloc, source),
        Kind::Select { test } => Ok(format!(in alloc; "select {test:?}")?),
        Kind::Map { sets } => sets_line(alloc, sets),
        Kind::Join { left, right } => pairs_line(alloc, "join", left, right),
        Kind::Lookup { left, right } => pairs_line(alloc, "lookup", left, right),
        Kind::Project { from } => Ok(format!(in alloc; "project{}", places(alloc, from)?)?),
        Kind::Aggregate { by, makes, order } => groups_line(alloc, by, makes, *order),
        Kind::Sort { by } => Ok(format!(in alloc; "sort{}", places(alloc, by)?)?),
        Kind::Distinct => Ok(String::from_str(alloc, "distinct")?),
        Kind::Union { any } => Ok(format!(in alloc;
            "union {}",
            if *any { "any" } else { "append" }
        )?),
    }
}

// A column with a sign of its kind, and `?` where it may be Null.
fn column_text(alloc: Global, column: &Column) -> Result<String, Fail> {
    let name = column.name.as_str();
    let mark = if column.nullable { "?" } else { "" };
    Ok(match column.kind {
        ColumnKind::Int => format!(in alloc; " {name}{mark}")?,
        ColumnKind::Dec(places) => format!(in alloc; " {name}.{places}{mark}")?,
        ColumnKind::Text => format!(in alloc; " {name}'{mark}")?,
    })
}

fn node_line(alloc: Global, node: &Node) -> Result<String, Fail> {
    let kind = kind_line(alloc, &node.kind)?;
    let mut line = format!(in alloc; "{} {} {kind}", node.id.0, node.name.as_str())?;
    for input in node.inputs.nodes() {
        line.push_str(format!(in alloc; " over {}", input.0)?.as_str())?;
    }
    line.push_str(":")?;
    for column in node.schema.columns() {
        line.push_str(column_text(alloc, column)?.as_str())?;
    }
    Ok(line)
}

#[test]
fn the_nodes_come_from_the_source_on(rt: HostRuntime) -> Result<(), Fail> {
    for (text, wanted) in [
        (FLOW, NODES.as_slice()),
        (KINDS, KINDS_NODES.as_slice()),
        (JOINED, JOINED_NODES.as_slice()),
        (GROUPED, GROUPED_NODES.as_slice()),
    ] {
        let flow = typed(rt.alloc(), text)?;
        assert_eq!(rt; flow.count(), wanted.len());
        for (node, want) in flow.nodes().iter().zip(wanted) {
            assert_eq!(rt; node_line(rt.alloc(), node)?.as_str(), *want);
        }
    }
    Ok(())
}

// A node over the columns `n int` and `t text`, and why it is none.
const CAUSES: [(&str, &str); 8] = [
    (
        "kind='select',where='n >'",
        "BadExpr { at: 3, what: Unexpected }",
    ),
    ("kind='select',where='k > t'", "UnknownColumn { column: k }"),
    ("kind='select',where='t > 1'", "BadType"),
    ("kind='select',where='n + 1'", "BadType"),
    (
        "kind='map',set=['k = ','x = x']",
        "BadExpr { at: 0, what: Unexpected }",
    ),
    (
        "kind='map',set=['k = n','k = x']",
        "UnknownColumn { column: x }",
    ),
    ("kind='map',set=['k = n','k = n','x = n > 1']", "BadType"),
    (
        "kind='map',set=['k = n','n = 1','k = 2']",
        "DoubleColumn { column: k }",
    ),
];

const SOURCE: &str = "source=[{name='a',file='a.csv',promise='seq',columns=['n int','t text']}]";

// The same of pairs, with the columns `n int?`, `m int` and `x text` at the right.
const PAIR_CAUSES: [(&str, &str); 7] = [
    ("'k = n'", "UnknownColumn { column: k }"),
    ("'n','t = k'", "UnknownColumn { column: k }"),
    ("'n = x','n = x'", "KindDiffers"),
    ("'n','n = m'", "DoubleColumn { column: n }"),
    ("'n','t = x','t = x'", "DoubleColumn { column: t }"),
    ("'n = m'", "DoubleColumn { column: n }"),
    ("'t = n'", "KindDiffers"),
];

const SOURCES: &str = "source=[{name='a',file='a.csv',promise='seq',columns=['n int','t text']},
{name='b',file='b.csv',promise='seq',columns=['n int?','m int','x text']}]";

fn cause(alloc: Global, sources: &str, node: &str) -> Result<String, Fail> {
    let text = format!(in alloc; "table={{input='q'}}\n{sources}\nnode=[{{name='q',{node}}}]\n")?;
    if text.len() > 65536 {
        return Err(Fail::new("longer than a flow file"));
    }
    let raw = read_flow(alloc, text.as_bytes())?;
    if !is_built(&raw) {
        return Err(Fail::new("not built"));
    }
    match type_flow(alloc, &raw) {
        Ok(_) => Err(Fail::new("a flow")),
        Err(Stop::Memory) => Err(Fail::new("no memory")),
        Err(Stop::Fault(fault)) => Ok(format!(in alloc; "{:?}", fault.cause)?),
    }
}

#[test]
fn a_node_is_refused_by_its_first_cause(rt: HostRuntime) -> Result<(), Fail> {
    for (node, want) in CAUSES {
        let node = format!(in rt.alloc(); "input='a',{node}")?;
        assert_eq!(rt; cause(rt.alloc(), SOURCE, node.as_str())?.as_str(), want);
    }
    for (pairs, want) in PAIR_CAUSES {
        for kind in ["join", "lookup"] {
            let node = format!(in rt.alloc(); "kind='{kind}',left='a',right='b',on=[{pairs}]")?;
            assert_eq!(rt; cause(rt.alloc(), SOURCES, node.as_str())?.as_str(), want);
        }
    }
    Ok(())
}
