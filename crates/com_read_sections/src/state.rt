//! What was read so far.

ghost use Rattle.std.specs.Prelude.{◌≡◌};

use com_base::{Guid, Rows};
use com_body::Body;
use com_classes::{Class, Interface};
use com_filter::{Filter, Rule};
use com_read_lines::Code;
use com_read_operands::Fault;
use com_read_statements::{MethodNumber, Names};

/// What the next line stands in, with what is open there.
#[derive(Drop)]
pub enum Section {
    /// Above the header.
    Header {
        /// The first byte outside the characters in a comment, if there is one.
        pending: Option<Fault>,
    },
    /// Outside of sections.
    Top,
    /// An interface, whose `method` lines follow directly.
    Interface {
        /// The interface with its methods so far.
        interface: Interface,
    },
    /// A class.
    Class {
        /// The class with its bodies so far.
        class: Class,
    },
    /// A body in a class.
    Body {
        /// The class with the bodies above this one.
        class: Class,
        /// The method whose body it is.
        head: MethodNumber,
        /// The body's statements so far.
        code: Code,
    },
    /// A filter.
    Filter {
        /// The filter's rules so far.
        rules: Rows<Rule>,
    },
    /// A thread's script.
    Thread {
        /// The script's statements so far.
        code: Code,
    },
}

/// What was read so far.
#[derive(Drop)]
pub struct State {
    /// The version that the header names, 0 above it.
    pub version: u8,
    /// The lanes of the pool, where a line gives them.
    pub pool: Option<u32>,
    /// The names that are declared, with the interfaces that are closed.
    pub names: Names,
    /// The IIDs that are declared, the built-in ones first.
    pub iids: Rows<Guid>,
    /// The CLSIDs that are declared.
    pub clsids: Rows<Guid>,
    /// The classes that are closed.
    pub classes: Rows<Class>,
    /// The filters that are closed.
    pub filters: Rows<Filter>,
    /// The scripts that are closed.
    pub threads: Rows<Body>,
    /// The lanes that the schedule tries first.
    pub picks: Rows<u32>,
    /// What the next line stands in.
    pub section: Section,
}

impl State {
    /// Makes another section the one that the next line stands in. What stood there is dropped here alone, so
    /// that the proof of no line lays out the drop of every kind of section.
    pub(crate) fn enter(&mut self, section: Section)
        ensures { self.new ≡ record self.old { section = section } }
    {
        self.section = section;
    }
}
