//! Tests of what decides in a controller, over lists of a thousand objects.

mod objects;
mod steps;
