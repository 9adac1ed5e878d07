//! Tests of the configuration: documents, and what each is read as.
#![tactic(auto)]

#[cfg(test)]
mod documents;
