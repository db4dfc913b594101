//! What a lane finds of an object.

/// What a lane finds of the object of a reference that it acts on.
#[derive(Debug, Clone, Copy, PartialEq, Eq)]
pub struct Target {
    /// Whether the lane's running apartment owns the object, so that the reference is direct.
    pub is_owned: bool,
    /// Whether the object is connected.
    pub is_connected: bool,
    /// The apartment that the object's making names.
    pub owner: u32,
    /// The number of the object's class, from 1.
    pub class: u32,
}

impl Target {
    /// What stands for null, of which nothing is asked.
    pub const NOTHING: Target = Target {
        is_owned: false,
        is_connected: false,
        owner: 0,
        class: 0,
    };
}
