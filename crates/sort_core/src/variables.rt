use rule_core::Names;

/// What the variables of a rule are named.
#[derive(Debug, Drop)]
pub struct Variables {
    /// the slots, in order
    pub slots: Names,
    /// the terms among the parameters
    pub own: Names,
    /// the children of the matched term, in order
    pub children: Names,
}
