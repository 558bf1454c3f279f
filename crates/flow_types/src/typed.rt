// What a node is found to be.
use crate::node::Kind;
use tuple_schema::Schema;

/// The kind of a node, and the columns that it gives.
#[derive(Drop)]
pub struct Typed {
    pub kind: Kind,
    pub schema: Schema,
}
