// The rules of document 01 as definitions (specs/), with what a run answers.
#![tactic(auto)]

pub mod answer;
