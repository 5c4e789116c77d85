// Who may do what: the verdict on a permission, and whether a scope or an ACL grants it.
#![tactic(auto)]

pub mod grants;
pub mod verdict;
