//! What the tables hold.
use crate::sets::{GroupSet, ObjectSet, Rights};

/// How many users there may be.
pub const USERS: usize = 16;

/// How many groups there may be.
pub const GROUPS: usize = 16;

/// How many subjects there may be.
pub const SUBJECTS: usize = 32;

/// How many objects there may be.
pub const OBJECTS: usize = 64;

/// What an object is.
#[derive(Clone, Copy, PartialEq, Eq)]
pub enum Kind {
    Container,
    File,
    Program,
}

/// A user: an administrator or not, the groups it is in, the programs it may launch, and the labels its subjects may have, from `floor` to `top`.
#[derive(Clone, Copy)]
pub struct User {
    pub admin: bool,
    pub groups: GroupSet,
    pub allowed: ObjectSet,
    pub floor: u64,
    pub top: u64,
}

/// A subject: it acts for a user, under a label; `program` is the object it was launched from, if it was.
#[derive(Clone, Copy)]
pub struct Subject {
    pub user: u8,
    pub label: u64,
    pub program: Option<u8>,
}

/// An object, with a set of rights for each user.
// Kept: a parent is the number of a slot: rolls and calls name objects so, and the tables are fixed memory.
#[derive(Clone, Copy)]
pub struct Object {
    pub kind: Kind,
    pub parent: u8,
    pub owner: u8,
    pub label: u64,
    pub mixed: bool,
    pub groups: GroupSet,
    pub rights: [Rights; USERS],
}

/// The tables: a slot for each number, empty where there is nothing. A group's slot holds its role.
// Kept: slots by number and not maps: the guard allocates nothing, a number is what a roll and a call say, and finding a slot takes one step.
#[derive(Clone, Copy)]
pub struct Tables {
    pub users: [Option<User>; USERS],
    pub groups: [Option<Rights>; GROUPS],
    pub subjects: [Option<Subject>; SUBJECTS],
    pub objects: [Option<Object>; OBJECTS],
}
