//! Statements of bodies and scripts as they are written: each as the words of its line, which reading gives
//! back.
mod calling;
mod laws;
mod shapes;
mod statements;

pub use calling::method_name;
pub use com_base::Memory;
pub use laws::written_is_read;
pub use statements::write_statement;
