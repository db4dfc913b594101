//! What is declared above a line.

ghost use Rattle.std.specs.Prelude.{◌≡◌, ◌<◌, IfSome, length};
ghost use Rattle.com_read_statements.specs.Calls.{method_position};

use com_base::{ByteList, Rows};
use com_classes::{Interface, Method};

/// The names that are declared above a line, each table in order of declaration.
#[derive(Drop)]
pub struct Names {
    /// The classes and natives, numbered from 1.
    pub classes: Rows<ByteList>,
    /// The interfaces, numbered from 0, the built-in ones first.
    pub interfaces: Rows<ByteList>,
    /// The filters, numbered from 1.
    pub filters: Rows<ByteList>,
    /// The interfaces with their methods, in the same order as their names.
    pub tables: Rows<Interface>,
}

/// The number of the method that has a name.
pub fn method_position(methods: &[Method], name: &[u8]) -> Option<usize>
    ensures value { result ≡ method_position methods.now name.now }
    ensures within { IfSome result (λ n. n < length methods.now) }
{
    for (i, method) in methods.iter().enumerate() {
        if method.name.as_slice() == name {
            return Some(i);
        }
    }
    None
}
