use crate::name::Name;

/// Where a child's result goes: to the activation of `parent` at `depth`, whose strand was born at the
/// nodelet `home`. `order` is how many children of that activation were outstanding before this one.
#[derive(Clone, Copy, PartialEq, Eq, Debug)]
pub struct Ticket {
    pub parent: Name,
    pub home: u32,
    pub depth: u32,
    pub order: u64,
}
