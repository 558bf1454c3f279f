// A flow file that has every key of every kind of node, and what is read of it.
use std::alloc::Global;
use std::test::Fail;
use tuple_schema::{Names, Text};
use workflow_file::{RawFlow, RawNode, RawSource, read_flow};

const FLOW: &[u8] = b"\
[table]
input = 'top'
key = ['n', 'm']
[[source]]
name = 'nums'
file = 'nums.csv'
format = 'csv'
header = 'any'
columns = ['n int', 'x dec2?']
promise = 'set'
key = ['n']
grouped = ['x', 'n']
[[source]]
name = 'more'
file = 'more.csv'
columns = ['n int']
promise = 'seq'
[[node]]
name = 'top'
kind = 'select'
input = 'nums'
where = 'x is not null'
declare = ['order-free', 'drives of nums']
[[node]]
name = 'p'
kind = 'project'
input = 'top'
columns = ['n', 'x as y']
[[node]]
name = 'm'
kind = 'map'
input = 'p'
set = ['z = n + 1']
[[node]]
name = 'j'
kind = 'join'
left = 'm'
right = 'more'
on = ['n', 'y = n']
[[node]]
name = 'l'
kind = 'lookup'
left = 'more'
right = 'j'
on = ['n']
[[node]]
name = 'g'
kind = 'aggregate'
input = 'l'
by = ['n']
make = ['c = count', 's = sum x']
order = 'key'
[[node]]
name = 'o'
kind = 'sort'
input = 'g'
by = ['n', 'c']
[[node]]
name = 'd'
kind = 'distinct'
input = 'o'
[[node]]
name = 'u'
kind = 'union'
inputs = ['d', 'o']
order = 'append'
[[node]]
name = 'i'
kind = 'number'
input = 'u'
column = 'row'
declare = ['set-to-seq']
";

const TABLE: &str = "top [n, m]";

const SOURCES: [&str; 2] = [
    "nums nums.csv [n int, x dec2?] set format=csv header=any key=[n] grouped=[x, n]",
    "more more.csv [n int] seq",
];

const NODES: [&str; 10] = [
    "top select input=nums where=x is not null declare=[order-free, drives of nums]",
    "p project input=top columns=[n, x as y]",
    "m map input=p set=[z = n + 1]",
    "j join left=m right=more on=[n, y = n]",
    "l lookup left=more right=j on=[n]",
    "g aggregate input=l by=[n] make=[c = count, s = sum x] order=key",
    "o sort input=g by=[n, c]",
    "d distinct input=o",
    "u union inputs=[d, o] order=append",
    "i number input=u column=row declare=[set-to-seq]",
];

fn list(alloc: Global, names: &Names) -> Result<String, Fail> {
    let mut line = String::from_str(alloc, "[")?;
    for name in names.items() {
        if line.len() > 1 {
            line.push_str(", ")?;
        }
        line.push_str(name.as_str())?;
    }
    line.push_str("]")?;
    Ok(line)
}

// Adds a key with its text, where it is there.
fn add_text(line: &mut String, key: &str, text: &Option<Text>) -> Result<(), Fail> {
    if let Some(text) = text {
        line.push_str(key)?;
        line.push_str(text.as_str())?;
    }
    Ok(())
}

// Adds a key with its list, where it is there.
fn add_list(
    alloc: Global,
    line: &mut String,
    key: &str,
    names: &Option<Names>,
) -> Result<(), Fail> {
    if let Some(names) = names {
        line.push_str(key)?;
        line.push_str(list(alloc, names)?.as_str())?;
    }
    Ok(())
}

fn source_line(alloc: Global, source: &RawSource) -> Result<String, Fail> {
    let mut line = format!(in alloc;
        "{} {} {} {}",
        source.name.as_str(),
        source.file.as_str(),
        list(alloc, &source.columns)?,
        source.promise.as_str()
    )?;
    add_text(&mut line, " format=", &source.format)?;
    add_text(&mut line, " header=", &source.header)?;
    add_list(alloc, &mut line, " key=", &source.key)?;
    add_list(alloc, &mut line, " grouped=", &source.grouped)?;
    Ok(line)
}

fn node_line(alloc: Global, node: &RawNode) -> Result<String, Fail> {
    let mut line = format!(in alloc; "{} {}", node.name.as_str(), node.kind.as_str())?;
    for (key, text) in [
        (" input=", &node.input),
        (" left=", &node.left),
        (" right=", &node.right),
        (" where=", &node.test),
    ] {
        add_text(&mut line, key, text)?;
    }
    for (key, names) in [
        (" inputs=", &node.inputs),
        (" on=", &node.on),
        (" columns=", &node.columns),
        (" set=", &node.set),
        (" by=", &node.by),
        (" make=", &node.make),
    ] {
        add_list(alloc, &mut line, key, names)?;
    }
    add_text(&mut line, " order=", &node.order)?;
    add_text(&mut line, " column=", &node.column)?;
    add_list(alloc, &mut line, " declare=", &node.declare)?;
    Ok(line)
}

fn read(alloc: Global) -> Result<RawFlow, Fail> {
    let text = FLOW;
    if text.len() > 65536 {
        return Err(Fail::new("longer than a flow file"));
    }
    match read_flow(alloc, text) {
        Ok(flow) => Ok(flow),
        Err(_) => Err(Fail::new("a fault")),
    }
}

#[test]
fn a_flow_has_every_key_of_its_file(rt: HostRuntime) -> Result<(), Fail> {
    let alloc = rt.alloc();
    let flow = read(alloc)?;
    let mut table = flow.table.input.as_str().to_string(alloc)?;
    add_list(alloc, &mut table, " ", &flow.table.key)?;
    assert_eq!(rt; table.as_str(), TABLE);
    let sources = flow.sources.items();
    assert_eq!(rt; sources.len(), SOURCES.len());
    for (source, want) in sources.iter().zip(SOURCES) {
        assert_eq!(rt; source_line(alloc, source)?.as_str(), want);
    }
    let nodes = flow.nodes.items();
    assert_eq!(rt; nodes.len(), NODES.len());
    for (node, want) in nodes.iter().zip(NODES) {
        assert_eq!(rt; node_line(alloc, node)?.as_str(), want);
    }
    Ok(())
}
