// Document 01, "What each does": PUT, DELETE and SETUP, and a dbVersion against the stored version.
#![tactic(auto)]

pub mod delete;
pub mod put;
pub mod setup;
pub mod version;
