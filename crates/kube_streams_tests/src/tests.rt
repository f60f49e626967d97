//! Adaptors over streams that are written down, values of properties that another program computed, and each call once.

mod backoffs;
mod predicates;
mod streams;
