//! The clauses of soundness.

/// What has to hold of sound tables, in the order in which it is checked.
#[derive(Clone, Copy, PartialEq, Eq)]
pub enum Clause {
    /// The groups that users and objects name exist.
    Groups,
    /// All labels are labels of the scheme, and each floor flows to its top.
    Labels,
    /// Object 0 is a container and its own parent, every parent is a container, and parents lead to 0.
    Tree,
    /// Owners, and users with rights on an object, exist.
    Owners,
    /// Allow lists name programs.
    Lists,
    /// Some user is an administrator.
    Administrator,
    /// Each unmixed container holds the label of every object under it, at any depth.
    Nesting,
    /// Only containers are mixed.
    Mixed,
}

impl Clause {
    /// Every clause, in the order in which they are checked.
    pub(crate) const ALL: [Clause; 8] = [
        Clause::Groups,
        Clause::Labels,
        Clause::Tree,
        Clause::Owners,
        Clause::Lists,
        Clause::Administrator,
        Clause::Nesting,
        Clause::Mixed,
    ];
}
