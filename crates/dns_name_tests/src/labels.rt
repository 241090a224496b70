//! Labels that are changed in place, and the symbols of a text in a closure.
mod lent;
mod owned_view;
mod symbols;
