//! What is shown of a value as JSON is read as that value again (the ProtoJSON guide): the law that ties the writer of
//! JSON to the reader of whole bodies. Begin with `laws`.
#![tactic(auto)]

pub mod laws;
