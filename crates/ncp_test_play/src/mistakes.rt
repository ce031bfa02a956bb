//! The explanations of mistakes in scripts and files.

mod files;
mod names;
mod readers;
